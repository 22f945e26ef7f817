//! Parties of the tests.
use lock_modes::PartyId;
use std::test::Fail;

pub fn party(id: u64) -> Result<PartyId, Fail> {
    Ok(PartyId::new(id).ok_or("the id of a party is not 0")?)
}

pub fn two_parties() -> Result<(PartyId, PartyId), Fail> {
    Ok((party(1)?, party(2)?))
}
