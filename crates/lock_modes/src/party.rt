//! Parties.
ghost use Rattle.std.specs.Prelude.{◌<◌};

/// The id of a party: a numbered participant, for instance a thread. It is never 0.
#[derive(Clone, Copy, PartialEq, Eq, Debug)]
pub struct PartyId {
    id: u64,
    ghost positive: { 0 < id },
}

impl PartyId {
    ghost use Rattle.std.specs.Prelude.{◌≡◌, ◌↔◌, IsSome, IfSome};
    ghost use Rattle.lock_modes.specs.Party.{id_of};

    /// Makes the id, or returns `None` for 0.
    pub fn new(id: u64) -> Option<PartyId>
        ensures some { IsSome result ↔ (0 < id) }
        ensures id { IfSome result (λ party. id_of party ≡ id) }
    {
        if id == 0 {
            return None;
        }
        Some(PartyId { id })
    }

    /// Returns the number.
    pub fn get(self) -> u64
        ensures id { result ≡ id_of self }
        ensures positive { 0 < result }
    {
        self.id
    }
}
