//! The mutex and its guards.
mod makers;
mod order;
mod parked_part;
mod parts;
mod raw_calls;
mod threads;

use lock_modes::Fault;
use lock_mutex::Mutex;
use lock_recorder::Recorder;
use lock_test_support::raw_lock::CallWatch;
use lock_traits::RawMutex;
use std::alloc::Global;

/// A mutex over a raw lock whose calls are watched.
pub fn watched<R: RawMutex + Drop, T: Drop>(
    alloc: Global,
    waiter: R::Waiter,
    value: T,
) -> Result<(Mutex<Recorder<R>, T>, CallWatch), Fault> {
    let raw: Recorder<R> = RawMutex::new(alloc, waiter)?;
    let watch = CallWatch::new(raw.log()?);
    Ok((Mutex::from_raw(raw, value)?, watch))
}
