//! How a lock on a word measures time.
ghost use Rattle.std.specs.Prelude.{◌≡◌, IsSome, IfSome, IfNone, MatchResult, OnErr};
ghost use Rattle.lock_modes.specs.declared.mode.Mode.TheVariants.{Exclusive, Upgradable};
ghost use Rattle.lock_word.specs.declared.want.ExWant.TheVariants.{Upgrade};
ghost use Rattle.lock_word.specs.Word.{want_of_mode};
ghost use Rattle.lock_one_word.specs.Calls.{IsTokenOf, WasLate};

use lock_modes::Mode;
use lock_one_word::{WordLock, WordToken};
use std::sync::Wait;
use std::time::Duration;

/// How long timed calls block. The waiter may provide a clock.
pub trait Timing<W: Wait>: Drop {
    /// The type of timeouts.
    type Duration: Drop;

    /// The type of deadlines.
    type Instant: Drop;

    /// Returns the instant that is `timeout` from now, or `None` if it cannot be represented.
    fn instant_after(waiter: &W, timeout: Self::Duration) -> Option<Self::Instant>;

    /// Returns the time until `deadline`, or `None` if it has passed.
    fn time_left(waiter: &W, deadline: &Self::Instant) -> Option<Duration>;

    /// Acquires the mode, blocking until `deadline`.
    fn acquire_until(
        lock: &WordLock,
        waiter: &W,
        mode: Mode,
        deadline: Self::Instant,
    ) -> Option<WordToken>
        ensures acquired { IfSome result (IsTokenOf lock.now mode) }
        ensures refused { IfNone result (WasLate lock.now (want_of_mode mode)) };

    /// Makes an upgradable token exclusive, blocking until `deadline`, or returns it unchanged.
    fn upgrade_until(
        lock: &WordLock,
        waiter: &W,
        token: WordToken,
        deadline: Self::Instant,
    ) -> Result<WordToken, WordToken>
        requires { IsTokenOf lock.now Upgradable token }
        ensures upgraded { MatchResult result (IsTokenOf lock.now Exclusive) (λ back. back ≡ token) }
        ensures refused { OnErr result (WasLate lock.now Upgrade) };
}

/// Measures no time: each deadline has passed. A timed try is a plain try, and does not block.
#[derive(Drop)]
pub struct NoTime;

impl<W: Wait> Timing<W> for NoTime {
    type Duration = ();

    type Instant = ();

    fn instant_after(_waiter: &W, _timeout: ()) -> Option<()>
        ensures { IsSome result }
    {
        Some(())
    }

    fn time_left(_waiter: &W, _deadline: &()) -> Option<Duration> {
        None
    }

    fn acquire_until(lock: &WordLock, _waiter: &W, mode: Mode, _deadline: ()) -> Option<WordToken> {
        lock.try_acquire(mode)
    }

    fn upgrade_until(
        lock: &WordLock,
        _waiter: &W,
        token: WordToken,
        _deadline: (),
    ) -> Result<WordToken, WordToken> {
        lock.try_upgrade(token)
    }
}
