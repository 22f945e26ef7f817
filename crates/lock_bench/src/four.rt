//! Four threads that acquire one mutex again and again.
use lock_modes::Fault;
use lock_mutex::Mutex;
use lock_raws::{LockCore, RawLock};
use std::alloc::Global;
use std::io;
use std::sync::Wait;
use std::thread::{self, Threads};
use std::time::{Clock, Duration, Instant};

/// What threads saw of a lock.
#[derive(Clone, Copy)]
struct Seen {
    /// How often the threads acquired.
    all: u64,
    /// How often the thread that acquired least did.
    fewest: u64,
    /// The longest wait for an acquisition.
    longest: Duration,
}

impl Seen {
    /// Joins what two threads, or pairs of threads, saw.
    fn and(self, other: Seen) -> Seen {
        Seen {
            all: self.all.wrapping_add(other.all),
            fewest: self.fewest.min(other.fewest),
            longest: self.longest.max(other.longest),
        }
    }
}

/// A count that threads raise until a deadline.
pub trait Contended: Sized {
    /// The permission to block.
    type Waiter: Wait;

    fn new(alloc: Global, waiter: Self::Waiter) -> Result<Self, Fault>;

    /// Acquires, adds 1 and releases. Returns the wait for the acquisition.
    fn round<K: Clock>(&self, clock: &K) -> io::Result<Duration>;

    /// Drops it: a bound `Drop` would have all of the raw lock proved twice.
    fn end(self);
}

impl<C: LockCore> Contended for Mutex<RawLock<C>, u64> {
    type Waiter = C::Waiter;

    fn new(alloc: Global, waiter: C::Waiter) -> Result<Mutex<RawLock<C>, u64>, Fault> {
        Mutex::new(alloc, waiter, 0)
    }

    fn round<K: Clock>(&self, clock: &K) -> io::Result<Duration> {
        let start = Instant::now(clock)?;
        let mut count = self.lock();
        let waited = start.elapsed(clock);
        *count = count.wrapping_add(1);
        drop(count);
        waited
    }

    fn end(self) {}
}

/// A line for one raw lock: acquisitions a millisecond, the fewest of a thread, and the longest wait.
pub fn print<R: Print + Clock + Wait + Threads + Sync + Copy, T: Contended<Waiter = R> + Sync>(
    rt: &R,
    alloc: Global,
    name: &str,
    millis: u64,
) -> io::Result<()> {
    let Ok(lock) = T::new(alloc, *rt) else {
        return println!(rt; "{name}: out of memory");
    };
    let (one, other) = thread::join(rt, || two(rt, &lock, millis), || two(rt, &lock, millis));
    lock.end();
    let seen = one.and(other);
    println!(rt;
        "{name}, four threads: {} acquisitions a millisecond, at least {} a thread, the longest wait {} microseconds",
        seen.all / millis.max(1),
        seen.fewest / millis.max(1),
        seen.longest.as_micros()
    )
}

fn two<R: Clock + Threads + Sync, T: Contended + Sync>(rt: &R, lock: &T, millis: u64) -> Seen {
    let (one, other) = thread::join(
        rt,
        || acquire_for(rt, lock, millis),
        || acquire_for(rt, lock, millis),
    );
    one.and(other)
}

/// Makes rounds for so many milliseconds.
fn acquire_for<K: Clock, T: Contended>(clock: &K, lock: &T, millis: u64) -> Seen {
    let mut seen = Seen {
        all: 0,
        fewest: 0,
        longest: Duration::ZERO,
    };
    let Ok(start) = Instant::now(clock) else {
        return seen;
    };
    let time = Duration::from_millis(millis);
    for round in 0..u64::MAX {
        seen.all = round;
        seen.fewest = round;
        match (lock.round(clock), start.elapsed(clock)) {
            (Ok(waited), Ok(passed)) if passed < time => seen.longest = seen.longest.max(waited),
            _ => return seen,
        }
    }
    seen
}
