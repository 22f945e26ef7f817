//! The examples of a `Desk` and of a journal: the calls succeed with ample memory.
use lock_api::model::{Bag, Mode, ModeStep, PackedWord, Reply, TokenTable};
use lock_api::raw::RecordingRaw;
use lock_api::{Mutex, PartyId};
use lock_examples::desk::{audit, audit_lock, deposit_under_lock, two_parties_acquire};
use std::alloc::Global;
use std::clone::Clone;
use std::sync::Wait;
use std::test::Fail;

fn party(id: u64) -> Result<PartyId, Fail> {
    Ok(PartyId::new(id).ok_or("the id of a party is not 0")?)
}

#[test]
fn two_parties_ask(rt: HostRuntime) -> Result<(), Fail> {
    let answers = two_parties_acquire::<TokenTable>(rt.alloc(), party(1)?, party(2)?)?;
    assert_eq!(rt; answers.locked_again, Ok(2));
    Ok(())
}

#[test]
fn a_deposit_is_replied_to(rt: HostRuntime) -> Result<(), Fail> {
    let replies = deposit_under_lock::<PackedWord>(rt.alloc(), party(1)?)?;
    assert_eq!(rt; replies[1], Reply::Answer(250));
    Ok(())
}

/// The value of a mutex after 5 was written to it, and what an audit of its journal finds.
fn write_and_audit<W: Wait + Clone + Drop>(
    alloc: Global,
    waiter: W,
) -> Result<(u64, Result<Bag, usize>), Fail> {
    let mutex: Mutex<RecordingRaw<W>, u64> = Mutex::new(alloc, waiter, 0)?;
    *mutex.lock() = 5;
    let (raw, value) = mutex.into_inner_with_raw();
    Ok((value, audit_lock(alloc, &raw)?))
}

#[test]
fn a_journal_is_audited(rt: HostRuntime) -> Result<(), Fail> {
    let audited = write_and_audit(rt.alloc(), rt)?;
    assert_eq!(rt; audited, (5, Ok(Bag::empty())));
    let twice = [
        ModeStep::Acquire(Mode::Exclusive),
        ModeStep::Acquire(Mode::Shared),
    ];
    assert_eq!(rt; audit(64, &twice), Err(1));
    Ok(())
}
