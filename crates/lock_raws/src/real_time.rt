//! Real time, by the waiter's clock.
use crate::raw_lock::RawLock;
use crate::timing::Timing;
use crate::word_core::WordCore;
use lock_modes::Mode;
use lock_one_word::{WordLock, WordToken};
use lock_time::time_left;
use std::sync::Wait;
use std::time::{Clock, Duration, Instant};

/// `WordRaw` with timed calls that block for as long as they are told, by the waiter's clock.
pub type TimedRaw<W> = RawLock<WordCore<W, RealTime>>;

/// Real time, by the waiter's clock. If the clock cannot be read, no time is left.
#[derive(Drop)]
pub struct RealTime;

impl<W: Wait + Clock> Timing<W> for RealTime {
    type Duration = Duration;

    type Instant = Instant;

    fn instant_after(waiter: &W, timeout: Duration) -> Option<Instant> {
        Instant::now(waiter).ok()?.checked_add(timeout)
    }

    fn time_left(waiter: &W, deadline: &Instant) -> Option<Duration> {
        time_left(waiter, *deadline)
    }

    fn acquire_until(
        lock: &WordLock,
        waiter: &W,
        mode: Mode,
        deadline: Instant,
    ) -> Option<WordToken> {
        lock.acquire_until(waiter, mode, deadline)
    }

    fn upgrade_until(
        lock: &WordLock,
        waiter: &W,
        token: WordToken,
        deadline: Instant,
    ) -> Result<WordToken, WordToken> {
        lock.upgrade_until(waiter, token, deadline)
    }
}
