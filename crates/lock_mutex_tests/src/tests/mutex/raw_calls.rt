//! The calls that raw locks get by default bodies, and the record of them.
use lock_modes::Mode::Exclusive;
use lock_recorder::CallLog;
use lock_recorder::RawCall::{self, Lock, Unlock, UnlockFair};
use lock_test_support::answer::equal;
use lock_test_support::raw_lock::{AdmitsAll, CallWatch};
use lock_traits::{RawMutex, RawMutexFair};
use std::alloc::Global;
use std::clone::Clone;
use std::sync::Wait;
use std::test::Fail;

/// Whether a look at a raw lock that was locked and unlocked sees these calls, and whether the look after it sees none.
fn looks<R: RawMutex>(raw: &R, calls: CallLog, wanted: &[RawCall]) -> (bool, bool) {
    let mut watch = CallWatch::new(calls);
    raw.unlock(raw.lock());
    watch.saw(wanted);
    let is_right = watch.is_right();
    watch.saw(&[]);
    (is_right, watch.is_right())
}

/// Calls that are wanted, and whether they are those of a lock and its unlock.
const LOOKS: [(&[RawCall], bool); 4] = [
    (&[Lock(Exclusive), Unlock(Exclusive)], true),
    (&[Lock(Exclusive), UnlockFair(Exclusive)], false),
    (&[Lock(Exclusive)], false),
    (&[], false),
];

fn check_looks<W: Wait + Clone + Drop>(alloc: Global, waiter: W) -> Result<(), Fail> {
    let raw: AdmitsAll<W> = RawMutex::new(alloc, waiter)?;
    for (wanted, is_right) in LOOKS {
        let seen = looks(&raw, raw.log()?, wanted);
        equal((wanted, seen), (wanted, (is_right, is_right)))?;
    }
    let calls = raw.log()?;
    let was_empty = calls.is_empty();
    raw.unlock(RawMutex::lock(&raw));
    equal((was_empty, calls.is_empty()), (true, false))
}

/// A look that saw other calls than it wanted is told, and a later one that is right does not mend it.
#[test]
fn a_watch_tells_of_other_calls(rt: HostRuntime) -> Result<(), Fail> {
    check_looks(rt.alloc(), rt)
}

fn check_bump<W: Wait + Clone + Drop>(alloc: Global, waiter: W) -> Result<(), Fail> {
    let raw: AdmitsAll<W> = RawMutex::new(alloc, waiter)?;
    let mut watch = CallWatch::new(raw.log()?);
    raw.unlock(RawMutexFair::bump(&raw, RawMutex::lock(&raw)));
    watch.saw(&[
        Lock(Exclusive),
        UnlockFair(Exclusive),
        Lock(Exclusive),
        Unlock(Exclusive),
    ]);
    watch.verdict()
}

#[test]
fn a_bump_by_default_is_a_fair_unlock_and_a_lock(rt: HostRuntime) -> Result<(), Fail> {
    check_bump(rt.alloc(), rt)
}
