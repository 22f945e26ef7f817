//! A held lock whose holder waits for a condition.
ghost use Rattle.std.specs.Prelude.{◌≡◌, Bool, true, false, IsSomeAnd};
ghost use Rattle.lock_guard.specs.Held.{held_value};
ghost use Rattle.lock_mutex.specs.WaitsWhile.{WaitsWhile};

use crate::condition_loop::{LoopEnd, Waits, run_loop};
use crate::sleep::Sleep;
use lock_guard::guard::{Acquire, Held, Inner, LockGuardMut, ValueGuard, ValueGuardMut};
use std::mem;
use std::sync::Wait;

/// A held lock, and the wait between two checks.
pub struct Waiting<L: Acquire, S> {
    pub held: Held<L>,
    pub sleep: S,
}

impl<L: Acquire, S: Sleep<L>> Waits for Waiting<L, S>
where
    L::Shown: ValueGuardMut,
{
    ghost use Rattle.lock_mutex.specs.Waiting.{answers_as, waiting_value, waiting_with_value, waiting_value-with, waiting_gives};

    type Value = <L::Shown as ValueGuard>::Value;

    ghost current = { waiting_value L.Shown.value_of };

    ghost with_current = { waiting_with_value L.Shown.with_value };

    ghost wait_gives = { waiting_gives (answers_as S.may_answer S.slept) };

    fn value(&mut self) -> &mut <L::Shown as ValueGuard>::Value {
        self.held.value_mut()
    }

    fn wait(&mut self) -> Option<bool> {
        Some(self.sleep.sleep(&mut self.held))
    }

    ghost current_with = { waiting_value-with L.Shown.value_of L.Shown.with_value L.Shown.value_with };
}

/// Waits while the condition is true, until a wait times out. Returns what the last check answered. That check left the
/// value that is held now.
pub fn sleep_while<
    W: Wait,
    L: Acquire + Copy,
    S: Sleep<L>,
    F: FnMut(&mut <L::Shown as ValueGuard>::Value) -> bool,
>(waiter: &W, held: &mut Held<L>, sleep: S, condition: F) -> bool
where
    L::Shown: ValueGuardMut,
    requires { F.IsAlwaysCallable condition }
    ensures lock { held.new.lock ≡ held.old.lock }
    ensures checks { WaitsWhile F.FnMut condition
        (held_value L.Shown.value_of held.old) result (held_value L.Shown.value_of held.new) }
    ensures in_time { ((timed_out : Bool) → S.may_answer timed_out → timed_out ≡ false)
        → result ≡ false }
    ensures slept { result ≡ true → S.slept sleep true }
{
    let inner = mem::replace(&mut held.inner, Inner::Empty);
    let mut waiting = Waiting {
        held: Held {
            lock: held.lock,
            inner,
        },
        sleep,
    };
    let end = run_loop(waiter, &mut waiting, condition);
    let Waiting {
        held: waited,
        sleep: _,
    } = waiting;
    held.inner.put(waited.into_inner());
    end == LoopEnd::TimedOut
}
