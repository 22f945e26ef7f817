//! What waits answer, and that none is refused before its time.
mod queue;
mod timed_calls;
mod waits;

use std::time::{Clock, Duration, Instant};

/// How long a call that is refused waits.
fn short() -> Duration {
    Duration::from_millis(20)
}

/// Whether `short` is over since then.
fn is_over<K: Clock>(clock: &K, start: Instant) -> bool {
    matches!(start.elapsed(clock), Ok(time) if time >= short())
}
