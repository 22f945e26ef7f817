//! Locks under names that fix their raw lock. A call of a maker by such a name needs no type.
use lock_mutex::{Condvar, Mutex};
use lock_raws::{TimedRaw, WordRaw};
use lock_raws_condvar::SleepingCondvar;
use lock_raws_fair::{FairRaw, TimedFairRaw};
use lock_raws_monitor::{RecordingRaw, TokenRaw};
use lock_remutex::ReentrantMutex;
use lock_rwlock::RwLock;

/// A mutex over a packed word.
pub type WordMutex<W, T> = Mutex<WordRaw<W>, T>;

/// A reader-writer lock over a packed word.
pub type WordRwLock<W, T> = RwLock<WordRaw<W>, T>;

/// A reentrant mutex over a packed word.
pub type WordReentrantMutex<W, T> = ReentrantMutex<WordRaw<W>, T>;

/// A condition variable for a `WordMutex`.
pub type WordCondvar<W> = Condvar<SleepingCondvar<WordRaw<W>>>;

/// A `WordMutex` whose timed calls wait for real time.
pub type TimedWordMutex<W, T> = Mutex<TimedRaw<W>, T>;

/// A `WordRwLock` whose timed calls wait for real time.
pub type TimedWordRwLock<W, T> = RwLock<TimedRaw<W>, T>;

/// A `WordReentrantMutex` whose timed calls wait for real time.
pub type TimedWordReentrantMutex<W, T> = ReentrantMutex<TimedRaw<W>, T>;

/// A condition variable for a `TimedWordMutex`, whose timed waits wait for real time.
pub type TimedWordCondvar<W> = Condvar<SleepingCondvar<TimedRaw<W>>>;

/// A mutex that admits in the order of arrival.
pub type FairMutex<W, T> = Mutex<FairRaw<W>, T>;

/// A reader-writer lock that admits in the order of arrival.
pub type FairRwLock<W, T> = RwLock<FairRaw<W>, T>;

/// A reentrant mutex whose owners are admitted in the order of arrival.
pub type FairReentrantMutex<W, T> = ReentrantMutex<FairRaw<W>, T>;

/// A condition variable for a `FairMutex`.
pub type FairCondvar<W> = Condvar<SleepingCondvar<FairRaw<W>>>;

/// A `FairMutex` whose timed calls wait for real time.
pub type TimedFairMutex<W, T> = Mutex<TimedFairRaw<W>, T>;

/// A `FairRwLock` whose timed calls wait for real time.
pub type TimedFairRwLock<W, T> = RwLock<TimedFairRaw<W>, T>;

/// A `FairReentrantMutex` whose timed calls wait for real time.
pub type TimedFairReentrantMutex<W, T> = ReentrantMutex<TimedFairRaw<W>, T>;

/// A condition variable for a `TimedFairMutex`, whose timed waits wait for real time.
pub type TimedFairCondvar<W> = Condvar<SleepingCondvar<TimedFairRaw<W>>>;

/// A mutex over a table of tokens, which ignores a token of another lock.
pub type TokenMutex<W, T> = Mutex<TokenRaw<W>, T>;

/// A reader-writer lock over a table of tokens, which ignores a token of another lock.
pub type TokenRwLock<W, T> = RwLock<TokenRaw<W>, T>;

/// A reentrant mutex over a table of tokens, which ignores a token of another lock.
pub type TokenReentrantMutex<W, T> = ReentrantMutex<TokenRaw<W>, T>;

/// A condition variable for a `TokenMutex`.
pub type TokenCondvar<W> = Condvar<SleepingCondvar<TokenRaw<W>>>;

/// A mutex that keeps a journal of its steps.
pub type RecordingMutex<W, T> = Mutex<RecordingRaw<W>, T>;

/// A reader-writer lock that keeps a journal of its steps.
pub type RecordingRwLock<W, T> = RwLock<RecordingRaw<W>, T>;

/// A reentrant mutex that keeps a journal of its steps.
pub type RecordingReentrantMutex<W, T> = ReentrantMutex<RecordingRaw<W>, T>;

/// A condition variable for a `RecordingMutex`.
pub type RecordingCondvar<W> = Condvar<SleepingCondvar<RecordingRaw<W>>>;
