//! The time until a deadline.
ghost use Rattle.std.specs.Prelude.{◌≡◌, ◌<◌, ◌≤◌, IfSome, IfOk, IfErr};
ghost use Rattle.std.specs.Duration.{as_nanos};
ghost use Rattle.std.specs.Time.{instant_nanos};

use std::marker::Model;
use std::time::{Clock, Duration, Instant};

/// A deadline that had passed when a thread looked at the clock, or of which the clock could not be read.
///
/// Only `time_until` makes one, and no clause can: what contracts see has a private field.
#[derive(Drop)]
pub struct Passed {
    deadline: Instant,
}

impl Model for Passed {
    ghost use Rattle.std.specs.Time.{instant_nanos};
    ghost use Rattle.lock_time.specs.Deadlines.{PassedDeadline, passed, passed_code};

    ghost Value = { PassedDeadline };

    ghost coded = { passed_code };

    ghost view = { λ p. passed (instant_nanos p.deadline) };
}

/// Returns the time until `deadline`, or that it has passed or the clock cannot be read.
pub fn time_until<W: Clock>(clock: &W, deadline: Instant) -> Result<Duration, Passed>
    ensures left { IfOk result (λ left. (0 < as_nanos left) × (as_nanos left ≤ instant_nanos deadline)) }
    ensures passed { IfErr result (λ look. look.nanos ≡ instant_nanos deadline) }
{
    match time_left(clock, deadline) {
        Some(left) => Ok(left),
        None => Err(Passed { deadline }),
    }
}

/// Returns the time until `deadline`, or `None` if it has passed or the clock cannot be read.
pub fn time_left<W: Clock>(clock: &W, deadline: Instant) -> Option<Duration>
    ensures { IfSome result (λ left. (0 < as_nanos left) × (as_nanos left ≤ instant_nanos deadline)) }
{
    let now = Instant::now(clock).ok()?;
    let left = deadline.checked_duration_since(now)?;
    if left.is_zero() { None } else { Some(left) }
}
