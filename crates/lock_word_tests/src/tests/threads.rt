//! Parties of a seated lock, each on its thread.
ghost use Rattle.std.specs.Prelude.{◌≡◌};

use crate::tests::WRITER;
use lock_modes::Mode;
use lock_test_support::answer::equal;
use lock_word::ExWant;
use lock_word::seated::{Attempt, Party, SeatedLock};
use std::hint::spin_loop;
use std::sync::Wait;
use std::sync::atomic::{AtomicBool, Ordering};
use std::test::Fail;
use std::thread::{Threads, join};

/// Holds shared until the other party does too, for at most this many turns.
fn meet<R: Wait>(
    rt: &R,
    lock: &SeatedLock,
    mut party: Party,
    mine: &AtomicBool,
    other: &AtomicBool,
) -> (Party, bool)
    requires { party.lock ≡ lock.now }
    ensures { result.0.lock ≡ lock.now }
{
    lock.acquire(rt, &mut party, ExWant::Shared);
    mine.store(true, Ordering::SeqCst);
    let mut seen = false;
    for _ in 0..100_000_000u64 {
        if other.load(Ordering::SeqCst) {
            seen = true;
            break;
        }
        spin_loop();
    }
    lock.release(&mut party, Mode::Shared);
    (party, seen)
}

/// The word while the party holds exclusively, how many such holds it has, and the word after its release.
fn write_alone<R: Wait>(rt: &R, lock: &SeatedLock, mut party: Party) -> [u64; 3]
    requires { party.lock ≡ lock.now }
{
    lock.acquire(rt, &mut party, ExWant::Exclusive);
    let word = lock.load(&mut party);
    let holds = party.holds(Mode::Exclusive);
    if holds == 1 {
        lock.release(&mut party, Mode::Exclusive);
    }
    [word, holds, lock.load(&mut party)]
}

/// Whether two readers see one another, and what the first sees when it writes after that.
fn meet_and_write<R: Threads + Wait + Sync>(
    rt: &R,
    lock: &SeatedLock,
    a: Party,
    b: Party,
) -> ([bool; 2], [u64; 3])
    requires first { a.lock ≡ lock.now }
    requires second { b.lock ≡ lock.now }
{
    let first = AtomicBool::new(false);
    let second = AtomicBool::new(false);
    let ((a, saw_second), (_, saw_first)) = join(
        rt,
        || meet(rt, lock, a, &first, &second),
        || meet(rt, lock, b, &second, &first),
    );
    ([saw_second, saw_first], write_alone(rt, lock, a))
}

#[test]
fn two_readers_meet(rt: HostRuntime) -> Result<(), Fail> {
    let (lock, party) = SeatedLock::new(rt.alloc(), 2)?;
    let (a, b) = lock.split(party);
    equal(
        meet_and_write(&rt, &lock, a, b),
        ([true; 2], [WRITER, 1, 0]),
    )
}

/// Attempts once to acquire exclusively. The holder swaps the flag from false to true and back, and releases. Returns
/// whether it acquired, and whether no swap found the other value.
fn swap_alone(lock: &SeatedLock, party: &mut Party, flag: &AtomicBool) -> (bool, bool)
    requires { party.old.lock ≡ lock.now }
    ensures { party.new.lock ≡ lock.now }
{
    if lock.attempt(party, ExWant::Exclusive) != Attempt::Done {
        return (false, true);
    }
    let found = flag.swap(true, Ordering::SeqCst);
    let left = flag.swap(false, Ordering::SeqCst);
    lock.release(party, Mode::Exclusive);
    (true, !found && left)
}

/// Attempts 1,000 times. Returns whether it acquired at all, and whether it was alone each time.
///
/// It has no permission to block, so no call of it blocks.
fn contend(lock: &SeatedLock, mut party: Party, flag: &AtomicBool) -> (bool, bool)
    requires { party.lock ≡ lock.now }
{
    let mut held = false;
    let mut alone = true;
    for _ in 0..1_000u32 {
        let (is_held, was_alone) = swap_alone(lock, &mut party, flag);
        held |= is_held;
        alone &= was_alone;
    }
    (held, alone)
}

/// Two parties contend, each on its thread.
fn contend_both<R: Threads + Sync>(
    rt: &R,
    lock: &SeatedLock,
    a: Party,
    b: Party,
    flag: &AtomicBool,
) -> (bool, bool)
    requires first { a.lock ≡ lock.now }
    requires second { b.lock ≡ lock.now }
{
    let (first, second) = join(rt, || contend(lock, a, flag), || contend(lock, b, flag));
    (first.0 || second.0, first.1 && second.1)
}

#[test]
fn exclusive_holders_are_alone(rt: HostRuntime) -> Result<(), Fail> {
    let (lock, party) = SeatedLock::new(rt.alloc(), 4)?;
    let (a, b) = lock.split(party);
    let (a, c) = lock.split(a);
    let (b, d) = lock.split(b);
    let flag = AtomicBool::new(false);
    let (first, second) = join(
        &rt,
        || contend_both(&rt, &lock, a, b, &flag),
        || contend_both(&rt, &lock, c, d, &flag),
    );
    assert!(rt; first.0 || second.0);
    assert!(rt; first.1 && second.1);
    Ok(())
}
