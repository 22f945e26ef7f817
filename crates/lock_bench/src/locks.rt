//! Rounds of locks on one thread. Loops that a Rust program has too are not inlined, so that each is compiled by itself.
use lock_modes::PartyId;
use lock_mutex::Mutex;
use lock_raws::{LockCore, NoTime, RawLock, WordCore};
use lock_raws_fair::FairCore;
use lock_raws_monitor::{Monitor, TableArbiter};
use lock_remutex::ReentrantMutex;
use lock_rwlock::{RwLock, RwLockUpgradableReadGuard, RwLockWriteGuard};
use lock_traits::{RawMutex, RawRwLock, RawRwLockUpgradeDowngrade};
use std::alloc::Global;
use std::io;
use std::sync::Wait;
use std::time::{Clock, Instant};

/// How many readers the reader-writer locks have.
const READERS: u64 = 64;

/// A line for each lock and raw lock: its names, and nanoseconds a round.
pub fn print<R: Print + Clock + Wait + Copy>(rt: &R, alloc: Global, rounds: u64) -> io::Result<()> {
    over::<R, Monitor<TableArbiter, R>>(rt, alloc, "TokenRaw", rounds)?;
    over::<R, WordCore<R, NoTime>>(rt, alloc, "WordRaw", rounds)?;
    over::<R, FairCore<TableArbiter, R, NoTime>>(rt, alloc, "FairRaw", rounds)
}

/// The lines of one raw lock.
fn over<R: Print + Clock + Wait + Copy, C: LockCore<Waiter = R>>(
    rt: &R,
    alloc: Global,
    name: &str,
    rounds: u64,
) -> io::Result<()>
where
    C::Token: Send,
{
    let Ok(mutex) = Mutex::<RawLock<C>, u64>::new(alloc, *rt, 0) else {
        return println!(rt; "{name}: out of memory");
    };
    print_mutex(rt, &mutex, name, rounds)?;
    let (raw, _) = mutex.into_inner_with_raw();
    print_raw(rt, &raw, name, rounds)?;
    let Ok(lock) = RwLock::<RawLock<C>, u64>::with_readers(alloc, *rt, READERS, 0) else {
        return println!(rt; "{name}: out of memory");
    };
    print_rwlock(rt, &lock, name, rounds)?;
    let Ok(lock) = ReentrantMutex::<RawLock<C>, u64>::new(alloc, *rt, 1) else {
        return println!(rt; "{name}: out of memory");
    };
    print_levels(rt, &lock, name, rounds)
}

fn print_mutex<R: Print + Clock, L: RawMutex>(
    rt: &R,
    mutex: &Mutex<L, u64>,
    name: &str,
    rounds: u64,
) -> io::Result<()> {
    let start = Instant::now(rt)?;
    lock_mutex(mutex, rounds);
    line(rt, name, "Mutex", start, rounds)
}

fn print_raw<R: Print + Clock, L: RawMutex>(
    rt: &R,
    raw: &L,
    name: &str,
    rounds: u64,
) -> io::Result<()> {
    let start = Instant::now(rt)?;
    lock_raw(raw, rounds);
    line(rt, name, "the raw lock alone", start, rounds)
}

fn print_rwlock<R: Print + Clock, L: RawRwLockUpgradeDowngrade>(
    rt: &R,
    lock: &RwLock<L, u64>,
    name: &str,
    rounds: u64,
) -> io::Result<()> {
    let start = Instant::now(rt)?;
    let _ = read(lock, rounds);
    line(rt, name, "RwLock read", start, rounds)?;
    let start = Instant::now(rt)?;
    write(lock, rounds);
    line(rt, name, "RwLock write", start, rounds)?;
    let start = Instant::now(rt)?;
    let _ = walk(lock, rounds);
    line(rt, name, "RwLock upgrade and downgrade", start, rounds)
}

fn print_levels<R: Print + Clock, C: LockCore>(
    rt: &R,
    lock: &ReentrantMutex<RawLock<C>, u64>,
    name: &str,
    rounds: u64,
) -> io::Result<()>
where
    C::Token: Send,
{
    let Some(party) = PartyId::new(1) else {
        return Ok(());
    };
    let start = Instant::now(rt)?;
    let _ = levels(lock, party, rounds, 0);
    line(rt, name, "ReentrantMutex, one level", start, rounds)?;
    let start = Instant::now(rt)?;
    let _ = levels(lock, party, rounds, 1);
    line(rt, name, "ReentrantMutex, two levels", start, rounds)
}

/// The names, and nanoseconds a round with a tenth.
fn line<R: Print + Clock>(
    rt: &R,
    name: &str,
    what: &str,
    start: Instant,
    rounds: u64,
) -> io::Result<()> {
    let tenths = start.elapsed(rt)?.as_nanos().wrapping_mul(10) / u128::from(rounds.max(1));
    println!(rt; "{name}, {what}: {}.{} ns", tenths / 10, tenths % 10)
}

#[inline(never)]
fn lock_mutex<R: RawMutex>(mutex: &Mutex<R, u64>, rounds: u64) {
    for _ in 0..rounds {
        let mut count = mutex.lock();
        *count = count.wrapping_add(1);
    }
}

#[inline(never)]
fn lock_raw<R: RawMutex>(raw: &R, rounds: u64) {
    for _ in 0..rounds {
        raw.unlock(raw.lock());
    }
}

#[inline(never)]
fn read<R: RawRwLock>(lock: &RwLock<R, u64>, rounds: u64) -> u64 {
    let mut sum: u64 = 0;
    for _ in 0..rounds {
        sum = sum.wrapping_add(*lock.read());
    }
    sum
}

#[inline(never)]
fn write<R: RawRwLock>(lock: &RwLock<R, u64>, rounds: u64) {
    for _ in 0..rounds {
        let mut count = lock.write();
        *count = count.wrapping_add(1);
    }
}

#[inline(never)]
fn walk<R: RawRwLockUpgradeDowngrade>(lock: &RwLock<R, u64>, rounds: u64) -> u64 {
    let mut sum: u64 = 0;
    for _ in 0..rounds {
        let mut writer = RwLockUpgradableReadGuard::upgrade(lock.upgradable_read());
        *writer = writer.wrapping_add(1);
        let upgradable = RwLockWriteGuard::downgrade_to_upgradable(writer);
        let reader = RwLockUpgradableReadGuard::downgrade(upgradable);
        sum = sum.wrapping_add(*reader);
    }
    sum
}

/// Acquires a level in each round, and `inner` levels under it, one after another. Inlined, since `inner` is a constant
/// at each call.
#[inline(always)]
fn levels<C: LockCore>(
    lock: &ReentrantMutex<RawLock<C>, u64>,
    party: PartyId,
    rounds: u64,
    inner: u64,
) -> u64
where
    C::Token: Send,
{
    let mut sum: u64 = 0;
    for _ in 0..rounds {
        if let Ok(outer) = lock.lock(party) {
            for _ in 0..inner {
                if let Ok(guard) = lock.lock(party) {
                    sum = sum.wrapping_add(*guard);
                }
            }
            sum = sum.wrapping_add(*outer);
        }
    }
    sum
}
