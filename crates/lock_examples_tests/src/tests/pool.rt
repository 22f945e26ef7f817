//! A pool of leases.
use crate::tests::in_threads::{Counts, twice};
use lock_api::raw::{LockCore, NoTime, RawLock, WordCore};
use lock_api::{ArcMutexGuard, Fault};
use lock_examples::Pool;
use std::alloc::Global;
use std::test::Fail;

type Core = WordCore<HostRuntime, NoTime>;

/// A pool of two objects.
fn pool_of<C: LockCore>(
    alloc: Global,
    waiters: [C::Waiter; 2],
    objects: [u64; 2],
) -> Result<Pool<RawLock<C>, u64>, Fault> {
    let [first, second] = waiters;
    let mut pool = Pool::new(alloc);
    pool.add(alloc, first, objects[0])?;
    pool.add(alloc, second, objects[1])?;
    Ok(pool)
}

/// Of a pool of 10 and 20: whether none is free while both are leased, what is free once the first came back as 11, and
/// what the second is after the pool's end.
fn lend_both<C: LockCore>(
    alloc: Global,
    waiters: [C::Waiter; 2],
) -> Result<Option<(bool, [Option<u64>; 2], u64)>, Fault> {
    let pool: Pool<RawLock<C>, u64> = pool_of(alloc, waiters, [10, 20])?;
    let (Some(mut first), Some(second)) = (pool.lend()?, pool.lend()?) else {
        return Ok(None);
    };
    let is_none_left = pool.lend()?.is_none();
    let while_lent = pool.with_free(|object| *object)?;
    ArcMutexGuard::with_mut(&mut first, |object| *object = 11);
    drop(first);
    let given_back = pool.with_free(|object| *object)?;
    drop(pool);
    let outlived = ArcMutexGuard::with(&second, |object| *object);
    Ok(Some((is_none_left, [while_lent, given_back], outlived)))
}

#[test]
fn each_object_is_lent_to_one(rt: HostRuntime) -> Result<(), Fail> {
    let lent = lend_both::<Core>(rt.alloc(), [rt, rt])?;
    assert_eq!(rt; lent, Some((true, [None, Some(11)], 20)));
    Ok(())
}

impl<C: LockCore> Counts for Pool<RawLock<C>, u64> {
    type Waiter = C::Waiter;

    /// How often an object was free, each time counted in it.
    fn count(&self) -> u64 {
        let mut found: u64 = 0;
        for _ in 0..500 {
            if let Ok(Some(())) = self.with_free(|object| *object = object.wrapping_add(1)) {
                found = found.wrapping_add(1);
            }
        }
        found
    }
}

/// What both objects are in sum.
fn sum<C: LockCore>(pool: &Pool<RawLock<C>, u64>) -> Result<Option<u64>, Fault> {
    let Some(one) = pool.lend()? else {
        return Ok(None);
    };
    let counted = ArcMutexGuard::with(&one, |object| *object);
    pool.with_free(|object| object.wrapping_add(counted))
}

#[test]
fn two_threads_share_the_objects(rt: HostRuntime) -> Result<(), Fail> {
    let pool = pool_of::<Core>(rt.alloc(), [rt, rt], [0, 0])?;
    let (first, second) = twice(&rt, &pool);
    assert_eq!(rt; sum(&pool)?, Some(first.wrapping_add(second)));
    Ok(())
}
