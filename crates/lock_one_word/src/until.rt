//! How long a call may wait.
ghost use Rattle.std.specs.Prelude.{◌≡◌, Bool, true, false};

use lock_time::time_left;
use std::time::{Clock, Duration, Instant};

/// The time that a call may sleep.
#[derive(Drop)]
pub(crate) enum Left {
    Endless,
    Within(Duration),
    Over,
}

impl Left {
    /// Returns the time that a sleep may last, which is at most half a millisecond if it is brief.
    pub(crate) fn at_most(self, is_brief: bool) -> Left {
        let most = Duration::from_micros(500);
        match self {
            Left::Endless if is_brief => Left::Within(most),
            Left::Within(left) if is_brief && most < left => Left::Within(most),
            other => other,
        }
    }
}

/// The end of a wait, if it has one.
pub(crate) trait Until<R> {
    /// Whether the wait has an end.
    ghost has_end: { Bool };

    /// Returns the time that is left.
    fn left(&self, rt: &R) -> Left
        ensures { result ≡ Left.Over → has_end ≡ true };

    /// Returns whether the wait is over.
    fn is_over(&self, rt: &R) -> bool
        ensures { result ≡ true → has_end ≡ true }
    {
        matches!(self.left(rt), Left::Over)
    }
}

/// A wait without an end.
#[derive(Drop)]
pub(crate) struct Endless;

impl<R> Until<R> for Endless {
    ghost has_end = { false };

    fn left(&self, _rt: &R) -> Left {
        Left::Endless
    }
}

/// A wait that ends at this instant.
#[derive(Drop)]
pub(crate) struct Deadline(pub(crate) Instant);

impl<R: Clock> Until<R> for Deadline {
    ghost has_end = { true };

    fn left(&self, rt: &R) -> Left {
        match time_left(rt, self.0) {
            Some(left) => Left::Within(left),
            None => Left::Over,
        }
    }
}
