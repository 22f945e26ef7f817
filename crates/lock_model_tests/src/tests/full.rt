//! A desk whose only place has a parked guard, over a table and over a packed word.
use lock_desk::Desk;
use lock_modes::{Fault, RawState};
use lock_states::table::TokenTable;
use lock_states::word::PackedWord;
use lock_test_support::answer::equal;
use lock_test_support::two_parties;
use std::alloc::Global;
use std::test::Fail;

fn keeps_its_parked_guard<R: RawState>(alloc: Global) -> Result<(), Fail> {
    let (one, two) = two_parties()?;
    let mut desk: Desk<R, u64> = Desk::mutex(alloc, 1, 0)?;
    equal(("lock", desk.lock(one)), ("lock", Ok(1)))?;
    equal(("park", desk.park(one, 1)), ("park", Ok(())))?;
    let tried = desk.try_lock(two);
    equal(("try_lock", tried), ("try_lock", Err(Fault::NoPlace)))?;
    let fault = desk.into_inner().err().map(|(fault, _)| fault);
    equal(
        ("into_inner", fault),
        ("into_inner", Some(Fault::GuardsOut)),
    )
}

#[test]
fn a_parked_guard_keeps_its_place(rt: HostRuntime) -> Result<(), Fail> {
    keeps_its_parked_guard::<TokenTable>(rt.alloc())?;
    keeps_its_parked_guard::<PackedWord>(rt.alloc())
}
