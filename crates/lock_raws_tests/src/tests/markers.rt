//! Which tokens and guards another thread may have. The compiler refuses `GuardNoSend` as an argument of `hand_over`.
use lock_raws::WordRaw;
use lock_rwlock::RwLock;
use lock_test_support::answer::equal;
use lock_traits::{GuardNoSend, GuardSend, RawRwLock};
use std::alloc::Global;
use std::ops::Deref;
use std::test::Fail;
use std::thread::{self, Threads};

/// Accepts what another thread may own.
fn hand_over<T: Send + Drop>(token: T) {
    drop(token);
}

/// Accepts what another thread may look at.
fn look_at<T: Sync>(_token: &T) {}

#[test]
fn markers_of_threads(rt: HostRuntime) -> Result<(), Fail> {
    let made = (GuardSend::new(), GuardNoSend::new());
    let default = (GuardSend::default(), GuardNoSend::default());
    look_at(&made);
    assert_eq!(rt;
        format!(in rt.alloc(); "{made:?}")?.as_str(),
        format!(in rt.alloc(); "{default:?}")?.as_str()
    );
    hand_over(made.0);
    Ok(())
}

/// Reads through one guard in two threads.
fn read_in_two_threads<R: Threads, G: Deref<Target = u64> + Sync>(rt: &R, guard: &G) -> (u64, u64) {
    thread::join(rt, || **guard, || **guard)
}

/// What two threads read through one guard, and the value of the lock.
fn read_and_end<T: Threads, R: RawRwLock + Drop + Sync>(
    rt: &T,
    alloc: Global,
    waiter: R::Waiter,
) -> Result<((u64, u64), u64), Fail>
where
    R::SharedGuard: Sync,
    R::Waiter: Send,
{
    let lock: RwLock<R, u64> = RwLock::new(alloc, waiter, 7)?;
    let guard = lock.read();
    let seen = read_in_two_threads(rt, &guard);
    drop(guard);
    Ok((seen, lock.into_inner()))
}

#[test]
fn threads_read_through_one_guard(rt: HostRuntime) -> Result<(), Fail> {
    let seen = read_and_end::<HostRuntime, WordRaw<HostRuntime>>(&rt, rt.alloc(), rt)?;
    equal(seen, ((7, 7), 7))
}
