//! The raw lock that spins, under both locks.
use crate::tests::in_threads::twice;
use lock_api::{Mutex, RawMutex, RawRwLock, RwLock};
use lock_examples::SpinLock;
use std::test::Fail;

type Spin = SpinLock<HostRuntime>;

#[test]
fn two_threads_count_under_a_mutex(rt: HostRuntime) -> Result<(), Fail> {
    let count: Mutex<Spin, u64> = Mutex::new(rt.alloc(), rt, 0)?;
    assert_eq!(rt; twice(&rt, &count), (1_000, 1_000));
    assert!(rt; !count.is_locked());
    assert_eq!(rt; count.into_inner(), 2_000);
    Ok(())
}

/// What two readers read at a time, and whether a third one and a writer are refused meanwhile.
fn read_together<R: RawRwLock>(lock: &RwLock<R, u64>) -> ((u64, u64), [bool; 2]) {
    let readers = (lock.read(), lock.read());
    let kept_out = [lock.try_read().is_none(), lock.try_write().is_none()];
    ((*readers.0, *readers.1), kept_out)
}

/// Writes 8. Returns whether the lock is held exclusively meanwhile, and a reader is refused.
fn write_alone<R: RawRwLock>(lock: &RwLock<R, u64>) -> [bool; 2] {
    let mut writer = lock.write();
    *writer = 8;
    [lock.is_locked_exclusive(), lock.try_read().is_none()]
}

#[test]
fn readers_share_and_a_writer_is_alone(rt: HostRuntime) -> Result<(), Fail> {
    let lock: RwLock<Spin, u64> = RwLock::with_readers(rt.alloc(), rt, 2, 7)?;
    assert_eq!(rt; read_together(&lock), ((7, 7), [true; 2]));
    assert_eq!(rt; write_alone(&lock), [true; 2]);
    assert_eq!(rt; lock.into_inner(), 8);
    Ok(())
}

/// Which tries give a token: those of two readers, of a third and a writer at the same time, and of a reader while a
/// writer holds the lock.
fn try_beside_others<R: RawRwLock>(raw: &R) -> [bool; 4]
where
    R::SharedGuard: Drop,
    R::ExclusiveGuard: Drop,
{
    let (one, other) = (raw.lock_shared(), raw.lock_shared());
    let third = raw.try_lock_shared().is_some();
    raw.unlock_shared(one);
    let beside_a_reader = raw.try_lock_exclusive().is_some();
    raw.unlock_shared(other);
    let writer = raw.lock_exclusive();
    let beside_a_writer = [
        raw.try_lock_exclusive().is_some(),
        raw.try_lock_shared().is_some(),
    ];
    raw.unlock_exclusive(writer);
    [
        third,
        beside_a_reader,
        beside_a_writer[0],
        beside_a_writer[1],
    ]
}

/// There is no value here, so only the word refuses a second token.
#[test]
fn no_token_is_given_beside_one_that_writes(rt: HostRuntime) -> Result<(), Fail> {
    let raw: Spin = RawRwLock::new(rt.alloc(), rt, 2)?;
    assert_eq!(rt; try_beside_others(&raw), [false; 4]);
    assert!(rt; !RawMutex::is_locked(&raw));
    Ok(())
}
