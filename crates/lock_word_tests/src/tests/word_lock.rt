//! Threads at a word lock. A lost wake-up makes a test hang.
ghost use Rattle.std.specs.Prelude.{◌≡◌};
ghost use Rattle.lock_modes.specs.declared.mode.Mode.TheVariants.{Exclusive, Shared};
ghost use Rattle.lock_one_word.specs.Calls.{IsTokenOf};

use lock_modes::Mode;
use lock_one_word::{WordLock, WordToken};
use std::alloc::Global;
use std::sync::Wait;
use std::sync::atomic::{AtomicU64, Ordering};
use std::test::Fail;
use std::thread::{Threads, join, yield_now};
use std::time::{Clock, Duration, Instant};

/// Gives other threads time to fall asleep.
fn rest(turns: u32) {
    for _ in 0..turns {
        yield_now();
    }
}

/// Returns once a call may sleep, and others had time to fall asleep too.
fn let_sleep<R: Wait>(rt: &R, lock: &WordLock) {
    for _ in rt.forever() {
        if lock.may_have_sleepers() {
            break;
        }
        yield_now();
    }
    rest(2_000);
}

/// What one thread does in a short run.
#[derive(Clone, Copy, PartialEq, Eq, Debug)]
enum Visit {
    Read,
    WriteAndDowngrade,
    Write,
    Upgrade,
    GiveUp,
}

/// One visit, with a pause at each mode.
fn make_visit<R: Wait + Clock>(rt: &R, lock: &WordLock, visit: Visit) {
    match visit {
        Visit::Read => read(rt, lock),
        Visit::WriteAndDowngrade => write_and_downgrade(rt, lock),
        Visit::Write => write(rt, lock),
        Visit::Upgrade => upgrade(rt, lock),
        Visit::GiveUp => give_up(rt, lock),
    }
}

fn read<R: Wait>(rt: &R, lock: &WordLock) {
    let token = lock.acquire(rt, Mode::Shared);
    rest(40);
    lock.release(token, Mode::Shared);
}

fn write_and_downgrade<R: Wait>(rt: &R, lock: &WordLock) {
    let token = lock.acquire(rt, Mode::Exclusive);
    rest(40);
    let token = lock.downgrade(token);
    rest(40);
    lock.release(token, Mode::Shared);
}

fn write<R: Wait>(rt: &R, lock: &WordLock) {
    let token = lock.acquire(rt, Mode::Exclusive);
    rest(40);
    lock.release(token, Mode::Exclusive);
}

fn upgrade<R: Wait>(rt: &R, lock: &WordLock) {
    let token = lock.acquire(rt, Mode::Upgradable);
    rest(40);
    let token = lock.upgrade(rt, token);
    rest(40);
    let token = lock.downgrade_to_upgradable(token);
    rest(40);
    let token = lock.downgrade_upgradable(token);
    lock.release(token, Mode::Shared);
}

/// Waits for a few microseconds, and releases what it acquired.
fn give_up<R: Wait + Clock>(rt: &R, lock: &WordLock) {
    let Ok(now) = Instant::now(rt) else {
        return;
    };
    let Some(deadline) = now.checked_add(Duration::from_micros(20)) else {
        return;
    };
    let Some(token) = lock.acquire_until(rt, Mode::Upgradable, deadline) else {
        return;
    };
    match lock.upgrade_until(rt, token, deadline) {
        Ok(token) => lock.release(token, Mode::Exclusive),
        Err(token) => lock.release(token, Mode::Upgradable),
    }
}

/// What the four threads of a run do.
const RUNS: [[Visit; 4]; 5] = [
    [Visit::Write, Visit::Write, Visit::Write, Visit::Write],
    [Visit::Read, Visit::Read, Visit::Write, Visit::Write],
    [Visit::Upgrade, Visit::Read, Visit::Upgrade, Visit::Read],
    [Visit::Read, Visit::Write, Visit::GiveUp, Visit::Write],
    [Visit::Write, Visit::Upgrade, Visit::GiveUp, Visit::Write],
];

/// Four visits to a new lock, on a thread each. Returns whether the lock is free afterwards.
fn short_run<R: Threads + Wait + Clock + Sync>(
    rt: &R,
    alloc: Global,
    readers: u64,
    visits: [Visit; 4],
) -> Result<bool, Fail> {
    let lock = WordLock::new(alloc, readers)?;
    let [first, second, third, fourth] = visits;
    join(
        rt,
        || {
            join(
                rt,
                || make_visit(rt, &lock, first),
                || make_visit(rt, &lock, second),
            );
        },
        || {
            join(
                rt,
                || make_visit(rt, &lock, third),
                || make_visit(rt, &lock, fourth),
            );
        },
    );
    Ok(!lock.is_locked())
}

/// Makes 5,000 short runs, or as many as a loaded machine does in 10 seconds: at least each run at each limit.
#[test]
fn no_short_run_hangs(rt: HostRuntime) -> Result<(), Fail> {
    let start = Instant::now(&rt)?;
    let mut made = 0usize;
    for run in 0..5_000usize {
        let readers = [1, 2, 4][run % 3];
        assert!(rt; short_run(&rt, rt.alloc(), readers, RUNS[run % 5])?);
        made = run + 1;
        if start.elapsed(&rt)? >= Duration::from_secs(10) {
            break;
        }
    }
    assert!(rt; made >= 15, "a run took most of a second");
    Ok(())
}

/// Waits until a token is held.
fn let_be_held<R: Wait>(rt: &R, lock: &WordLock) {
    for _ in rt.forever() {
        if lock.is_locked() {
            break;
        }
        yield_now();
    }
}

/// Reads until a call sleeps. Returns whether a reader was refused then.
fn read_and_refuse<R: Wait>(rt: &R, lock: &WordLock) -> bool {
    let token = lock.acquire(rt, Mode::Shared);
    let_sleep(rt, lock);
    let is_refused = match lock.try_acquire(Mode::Shared) {
        Some(reader) => {
            lock.release(reader, Mode::Shared);
            false
        }
        None => true,
    };
    lock.release(token, Mode::Shared);
    is_refused
}

#[test]
fn a_waiting_writer_keeps_readers_out_and_is_woken(rt: HostRuntime) -> Result<(), Fail> {
    let lock = WordLock::new(rt.alloc(), 4)?;
    let (is_refused, _) = join(
        &rt,
        || read_and_refuse(&rt, &lock),
        || {
            let_be_held(&rt, &lock);
            write(&rt, &lock)
        },
    );
    assert!(rt; is_refused, "the bar is set");
    assert!(rt;
        !lock.may_have_sleepers(),
        "the release cleared the bit of sleepers"
    );
    Ok(())
}

/// Writes until two calls sleep, downgrades, and keeps the shared token until both have read.
fn downgrade_later<R: Wait>(rt: &R, lock: &WordLock, reads: &AtomicU64) {
    let token = lock.acquire(rt, Mode::Exclusive);
    let_sleep(rt, lock);
    let token = lock.downgrade(token);
    come_to(rt, reads, 2);
    lock.release(token, Mode::Shared);
}

/// Reads once, after the other thread has acquired, and counts that.
fn read_and_count<R: Wait>(rt: &R, lock: &WordLock, reads: &AtomicU64) {
    let_be_held(rt, lock);
    let token = lock.acquire(rt, Mode::Shared);
    reads.fetch_add(1, Ordering::SeqCst);
    lock.release(token, Mode::Shared);
}

#[test]
fn a_downgrade_wakes_readers(rt: HostRuntime) -> Result<(), Fail> {
    let lock = WordLock::new(rt.alloc(), 4)?;
    let reads = AtomicU64::new(0);
    join(
        &rt,
        || downgrade_later(&rt, &lock, &reads),
        || {
            join(
                &rt,
                || read_and_count(&rt, &lock, &reads),
                || read_and_count(&rt, &lock, &reads),
            );
        },
    );
    assert!(rt; reads.load(Ordering::SeqCst) == 2);
    Ok(())
}

fn come_to<R: Wait>(rt: &R, turn: &AtomicU64, wanted: u64) {
    for _ in rt.forever() {
        if turn.load(Ordering::SeqCst) == wanted {
            break;
        }
        yield_now();
    }
}

/// Tries to read so often. Returns whether no try was refused.
fn try_often(lock: &WordLock) -> bool {
    for _ in 0..20_000u32 {
        let Some(token) = lock.try_acquire(Mode::Shared) else {
            return false;
        };
        lock.release(token, Mode::Shared);
    }
    true
}

#[test]
fn readers_alone_refuse_no_try(rt: HostRuntime) -> Result<(), Fail> {
    let lock = WordLock::new(rt.alloc(), 4)?;
    assert!(rt; join(&rt, || try_often(&lock), || try_often(&lock)) == (true, true));
    Ok(())
}
