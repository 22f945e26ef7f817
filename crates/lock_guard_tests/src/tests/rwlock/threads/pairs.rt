//! Two numbers that a writer keeps equal, behind a lock on a word.
use lock_raws::WordRaw;
use lock_rwlock::RwLock;
use lock_traits::RawRwLock;
use std::test::Fail;
use std::thread;

type Pair = (u64, u64);

/// Adds 1 to both numbers, 10,000 times.
fn write_pairs<R: RawRwLock>(lock: &RwLock<R, Pair>) {
    for _ in 0..10_000u32 {
        lock.with_write(|pair| {
            pair.0 = pair.0.wrapping_add(1);
            pair.1 = pair.1.wrapping_add(1);
        });
    }
}

/// How often the two numbers differed, or went back.
fn read_pairs<R: RawRwLock>(lock: &RwLock<R, Pair>) -> u64 {
    let mut wrong: u64 = 0;
    let mut last = 0;
    for _ in 0..10_000u32 {
        let (one, other) = lock.with_read(|pair| *pair);
        if one != other || one < last {
            wrong = wrong.wrapping_add(1);
        }
        last = one;
    }
    wrong
}

#[test]
fn readers_see_no_half_of_a_pair(rt: HostRuntime) -> Result<(), Fail> {
    for readers in [1, 2, 64] {
        let lock: RwLock<WordRaw<HostRuntime>, Pair> = RwLock::with_readers(
            rt.alloc(),
            rt,
            readers,
            (0, 0),
        )?;
        let (wrong, ()) = thread::join(
            &rt,
            || thread::join(&rt, || read_pairs(&lock), || read_pairs(&lock)),
            || write_pairs(&lock),
        );
        assert_eq!(rt; (wrong, lock.into_inner().0), ((0, 0), 10_000));
    }
    Ok(())
}
