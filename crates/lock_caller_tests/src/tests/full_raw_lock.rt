//! Code that is generic over the raw lock runs over a raw lock on a word and over a fair one.
use crate::tests::callers::{read_within, write_under_each};
use lock_api::raw::{FairRaw, FullRawLockTimed, TimedRaw, WaiterOf};
use lock_api::{Mutex, RawMutexTimed, RwLock};
use std::alloc::Global;
use std::clone::Clone;
use std::test::Fail;
use std::time::Duration;

/// What two locks of 1 and 2 hold, if they are acquired in time: while they are free, and while a writer holds the second.
fn free_and_held<R: FullRawLockTimed>(
    alloc: Global,
    waiter: &WaiterOf<R>,
    times: [[<R as RawMutexTimed>::Duration; 2]; 2],
) -> Result<[Option<(u64, u64)>; 2], Fail> {
    let [first, second] = times;
    let mutex: Mutex<R, u64> = Mutex::new(alloc, waiter.clone()?, 1)?;
    let lock: RwLock<R, u64> = RwLock::new(alloc, waiter.clone()?, 2)?;
    let free = read_within(&mutex, &lock, first);
    let _writer = lock.write();
    Ok([free, read_within(&mutex, &lock, second)])
}

#[test]
fn one_bound_fits_a_word_and_a_fair_lock(rt: HostRuntime) -> Result<(), Fail> {
    assert_eq!(rt;
        write_under_each::<FairRaw<HostRuntime>>(rt.alloc(), &rt, 5)?,
        (5, 5)
    );
    let times = [[Duration::from_millis(20); 2]; 2];
    let read = free_and_held::<TimedRaw<HostRuntime>>(rt.alloc(), &rt, times)?;
    assert_eq!(rt; read, [Some((1, 2)), None]);
    Ok(())
}
