//! What a caller knows after a wait with a condition.
ghost use Rattle.std.specs.Prelude.{◌≡◌, ◌≤◌, IfSome};

use lock_api::{Condvar, MutexGuard, RawCondvar};

/// After a wait while the value is below 5, it is not below 5.
pub fn wait_for_5<C: RawCondvar>(
    condvar: &Condvar<C>,
    guard: &mut MutexGuard<'_, C::RawMutex, u64>,
) -> u64
    ensures { 5 ≤ result }
{
    condvar.wait_while(guard, |value| *value < 5);
    **guard
}
