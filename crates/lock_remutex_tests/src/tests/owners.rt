//! Calls of an owner and of another party, over a raw lock that admits everything.
use lock_modes::Fault::{self, Foreign};
use lock_modes::Mode::Exclusive;
use lock_modes::PartyId;
use lock_recorder::RawCall::{Lock, TryLock, Unlock, UnlockFair};
use lock_remutex::RawReentrantMutex;
use lock_test_support::answer::equal;
use lock_test_support::raw_lock::{AdmitsAll, CallWatch};
use lock_test_support::{party, two_parties};
use lock_traits::{RawMutex, RawMutexFair};
use std::alloc::Global;
use std::clone::Clone;
use std::sync::Wait;
use std::test::Fail;

/// A call of a party.
#[derive(Clone, Copy)]
enum OwnerAct {
    Lock,
    TryLock,
    Unlock,
    UnlockFair,
    Bump,
}

/// A call, whether the first party makes it, its answer, and whether the first party owns the lock then.
type Answered = (&'static str, OwnerAct, bool, Result<bool, Fault>, bool);

/// The first party acquires two levels and releases them.
const ANSWERED: [Answered; 11] = [
    ("lock", OwnerAct::Lock, true, Ok(true), true),
    ("try_lock", OwnerAct::TryLock, true, Ok(true), true),
    (
        "another's try_lock",
        OwnerAct::TryLock,
        false,
        Ok(false),
        true,
    ),
    (
        "another's unlock",
        OwnerAct::Unlock,
        false,
        Err(Foreign),
        true,
    ),
    (
        "another's unlock_fair",
        OwnerAct::UnlockFair,
        false,
        Err(Foreign),
        true,
    ),
    ("another's bump", OwnerAct::Bump, false, Err(Foreign), true),
    ("unlock", OwnerAct::Unlock, true, Ok(true), true),
    ("bump", OwnerAct::Bump, true, Ok(true), true),
    ("unlock_fair", OwnerAct::UnlockFair, true, Ok(true), false),
    (
        "unlock once more",
        OwnerAct::Unlock,
        true,
        Err(Foreign),
        false,
    ),
    ("another's lock", OwnerAct::Lock, false, Ok(true), false),
];

/// Makes the call. Its answer is whether the lock was acquired, or true.
fn answer<R: RawMutexFair>(
    lock: &RawReentrantMutex<R>,
    act: OwnerAct,
    party: PartyId,
) -> Result<bool, Fault> {
    match act {
        OwnerAct::Lock => lock.lock(party)?,
        OwnerAct::TryLock => return lock.try_lock(party),
        OwnerAct::Unlock => lock.unlock(party)?,
        OwnerAct::UnlockFair => lock.unlock_fair(party)?,
        OwnerAct::Bump => lock.bump(party)?,
    }
    Ok(true)
}

fn check_answers<R: RawMutexFair>(
    lock: &RawReentrantMutex<R>,
    (one, two): (PartyId, PartyId),
) -> Result<(), Fail> {
    for (call, act, is_first, wanted, is_owned) in ANSWERED {
        let found = answer(lock, act, if is_first { one } else { two });
        let owned = lock.is_owned_by_current_thread(one);
        equal((call, found, owned), (call, wanted, is_owned))?;
    }
    Ok(())
}

/// Another party's token is released at once, since it came too early.
fn check_calls<W: Wait + Clone + Drop>(
    alloc: Global,
    waiter: W,
    parties: (PartyId, PartyId),
) -> Result<(), Fail> {
    let raw: AdmitsAll<W> = RawMutex::new(alloc, waiter)?;
    let mut watch = CallWatch::new(raw.log()?);
    check_answers(&RawReentrantMutex::from_raw(alloc, raw)?, parties)?;
    watch.saw(&[
        Lock(Exclusive),
        TryLock(Exclusive),
        Unlock(Exclusive),
        UnlockFair(Exclusive),
        Lock(Exclusive),
        UnlockFair(Exclusive),
        Lock(Exclusive),
    ]);
    watch.verdict()
}

#[test]
fn a_raw_lock_that_lies_makes_no_second_owner(rt: HostRuntime) -> Result<(), Fail> {
    check_calls(rt.alloc(), rt, two_parties()?)
}

/// Ids from 2^32 on do not fit into the owner word.
#[test]
fn parties_of_large_ids_get_the_same_answers(rt: HostRuntime) -> Result<(), Fail> {
    check_calls(rt.alloc(), rt, (party(1 << 32)?, party(u64::MAX)?))
}

/// A party whose id fits meets an owner whose id does not, and the other way round.
#[test]
fn a_large_id_and_a_small_one_get_the_same_answers(rt: HostRuntime) -> Result<(), Fail> {
    check_calls(rt.alloc(), rt, (party(1 << 32)?, party(1)?))?;
    check_calls(rt.alloc(), rt, (party(1)?, party(1 << 32)?))
}
