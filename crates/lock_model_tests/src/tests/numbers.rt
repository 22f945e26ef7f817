//! Guard numbers end at 2^64 - 1, over a table and over a packed word.
use lock_desk::Desk;
use lock_machine::Way;
use lock_modes::{Fault, PartyId, RawState};
use lock_states::table::TokenTable;
use lock_states::word::PackedWord;
use lock_test_support::answer::equal;
use lock_test_support::party;
use std::alloc::Global;
use std::test::Fail;

/// A call of one party.
#[derive(Clone, Copy, PartialEq, Debug)]
enum NumberStep {
    SkipTo(u64),
    Lock,
    TryLock,
    Unlock(u64),
}

/// The number of a new guard, if any, or the refusal.
type NumberAnswer = Result<Option<u64>, Fault>;

impl NumberStep {
    fn make<R: RawState>(self, desk: &mut Desk<R, u64>, party: PartyId) -> NumberAnswer {
        match self {
            NumberStep::SkipTo(next) => desk.skip_to(next).map(|()| None),
            NumberStep::Lock => desk.lock(party).map(Some),
            NumberStep::TryLock => desk.try_lock(party),
            NumberStep::Unlock(guard) => desk.unlock(party, guard, Way::Plain).map(|()| None),
        }
    }
}

/// Makes the steps at a mutex with so many places, and compares each answer.
fn check<R: RawState>(
    alloc: Global,
    places: u64,
    rows: &[(NumberStep, NumberAnswer)],
) -> Result<(), Fail> {
    let one = party(1)?;
    let mut desk: Desk<R, u64> = Desk::mutex(alloc, places, 0)?;
    for (step, wanted) in rows {
        equal((*step, step.make(&mut desk, one)), (*step, *wanted))?;
    }
    Ok(())
}

/// One guard gets the last number, and no guard gets a number after it.
fn numbers_end<R: RawState>(alloc: Global) -> Result<(), Fail> {
    let with_a_free_place = [
        (NumberStep::SkipTo(u64::MAX), Ok(None)),
        (NumberStep::Lock, Ok(Some(u64::MAX))),
        (NumberStep::Unlock(u64::MAX), Ok(None)),
        (NumberStep::Lock, Err(Fault::NumbersSpent)),
    ];
    check::<R>(alloc, 2, &with_a_free_place)?;
    let with_one_place = [
        (NumberStep::SkipTo(u64::MAX), Ok(None)),
        (NumberStep::Lock, Ok(Some(u64::MAX))),
        (NumberStep::SkipTo(5), Err(Fault::GuardsOut)),
        (NumberStep::Lock, Err(Fault::NoPlace)),
        (NumberStep::Unlock(u64::MAX), Ok(None)),
        (NumberStep::TryLock, Err(Fault::NumbersSpent)),
        (NumberStep::SkipTo(u64::MAX), Err(Fault::BadLimits)),
    ];
    check::<R>(alloc, 1, &with_one_place)
}

#[test]
fn numbers_up_to_the_last(rt: HostRuntime) -> Result<(), Fail> {
    numbers_end::<TokenTable>(rt.alloc())?;
    numbers_end::<PackedWord>(rt.alloc())
}
