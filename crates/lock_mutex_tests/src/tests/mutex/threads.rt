//! Threads that count behind a mutex, and wait for each other.
use lock_mutex::{Condvar, Mutex};
use lock_raws::WordRaw;
use lock_raws_condvar::SpuriousCondvar;
use lock_test_support::raw_lock::AdmitsAll;
use lock_test_support::{Count, add_in_four_threads};
use lock_traits::RawMutex;
use std::test::Fail;
use std::thread;

/// A mutex that threads count behind.
#[derive(Drop)]
struct CountedMutex<'a, R>(&'a Mutex<R, u64>);

impl<R: RawMutex> Count for CountedMutex<'_, R> {
    type Waiter = R::Waiter;

    fn add_one(&self) {
        let mut count = self.0.lock();
        *count = count.wrapping_add(1);
    }
}

/// Waits until all threads came. Of two threads that wait for each other none ends if a wait holds the mutex.
fn come_and_wait<R: RawMutex>(
    mutex: &Mutex<R, u64>,
    condvar: &Condvar<SpuriousCondvar<R>>,
    all: u64,
) {
    let mut guard = mutex.lock();
    *guard = guard.wrapping_add(1);
    condvar.wait_while(&mut guard, |come| *come < all);
}

/// Over a raw lock that admits everyone, so that only the value's lock excludes the threads.
#[test]
fn four_threads_count_and_two_wait_for_each_other(rt: HostRuntime) -> Result<(), Fail> {
    let counter: Mutex<AdmitsAll<HostRuntime>, u64> = Mutex::new(rt.alloc(), rt, 0)?;
    add_in_four_threads(&rt, &CountedMutex(&counter));
    assert_eq!(rt; counter.into_inner(), 4_000);
    let come: Mutex<AdmitsAll<HostRuntime>, u64> = Mutex::new(rt.alloc(), rt, 0)?;
    let condvar: Condvar<SpuriousCondvar<AdmitsAll<HostRuntime>>> = Condvar::new(rt.alloc())?;
    thread::join(
        &rt,
        || come_and_wait(&come, &condvar, 2),
        || come_and_wait(&come, &condvar, 2),
    );
    assert_eq!(rt; come.into_inner(), 2);
    Ok(())
}

#[test]
fn four_threads_count_behind_a_word(rt: HostRuntime) -> Result<(), Fail> {
    let counter: Mutex<WordRaw<HostRuntime>, u64> = Mutex::new(rt.alloc(), rt, 0)?;
    for _ in 0..10 {
        add_in_four_threads(&rt, &CountedMutex(&counter));
    }
    assert_eq!(rt; counter.into_inner(), 40_000);
    Ok(())
}
