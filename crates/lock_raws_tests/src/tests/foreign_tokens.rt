//! Tokens of another lock, which a lock over a table ignores.
use lock_modes::Mode::Shared;
use lock_modes::ModeStep::{Acquire, Release};
use lock_raws::RawLock;
use lock_raws_monitor::{Arbiter, Monitor, RecordingArbiter, TableArbiter};
use lock_test_support::answer::equal;
use lock_traits::{RawRwLock, RawRwLockDowngrade};
use std::alloc::Global;
use std::clone::Clone;
use std::sync::Wait;
use std::test::Fail;

/// Releases a token of the one at the other, which has a reader of its own. Returns whether each is held after that.
fn unlock_the_other<A: Arbiter, W: Wait + Clone + Drop>(
    one: &RawLock<Monitor<A, W>>,
    other: &RawLock<Monitor<A, W>>,
) -> [bool; 2] {
    let shared = other.lock_shared();
    other.unlock_exclusive(one.lock_exclusive());
    let is_held = RawRwLock::is_locked(other);
    other.unlock_shared(shared);
    [one.is_locked_exclusive(), is_held]
}

/// Downgrades a token of the one at the other, and releases it there. Returns whether that is held after each.
fn downgrade_at_the_other<A: Arbiter, W: Wait + Clone + Drop>(
    one: &RawLock<Monitor<A, W>>,
    other: &RawLock<Monitor<A, W>>,
) -> [bool; 2] {
    let shared = other.downgrade(one.lock_exclusive());
    let is_held = RawRwLock::is_locked(other);
    other.unlock_shared(shared);
    [is_held, RawRwLock::is_locked(other)]
}

/// They also write no step.
fn check<A: Arbiter, W: Wait + Clone + Drop>(alloc: Global, rt: &W) -> Result<(), Fail> {
    let one: RawLock<Monitor<RecordingArbiter<A>, W>> = RawLock::with_room(
        alloc,
        rt.clone()?,
        1,
        4,
    )?;
    let other: RawLock<Monitor<RecordingArbiter<A>, W>> = RawLock::with_room(
        alloc,
        rt.clone()?,
        1,
        4,
    )?;
    equal(unlock_the_other(&one, &other), [true, true])?;
    let third: RawLock<Monitor<RecordingArbiter<A>, W>> = RawLock::with_room(
        alloc,
        rt.clone()?,
        1,
        4,
    )?;
    equal(downgrade_at_the_other(&third, &other), [false, false])?;
    let steps = other.journal(alloc)?;
    equal(
        steps.as_slice(),
        [Acquire(Shared), Release(Shared)].as_slice(),
    )
}

#[test]
fn foreign_tokens_are_ignored(rt: HostRuntime) -> Result<(), Fail> {
    check::<TableArbiter, HostRuntime>(rt.alloc(), &rt)
}
