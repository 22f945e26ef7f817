//! Waits that are known beforehand.
ghost use Rattle.std.specs.Prelude.{◌≡◌, Bool, [], ◌∷◌, IfSome, IsNone, ◌↔◌, refl};
ghost use Rattle.lock_mutex.specs.Script.{present_value, waits_to_come, with_present_value, WaitGives};

use crate::condition_loop::Waits;
use std::vec::IntoIter;

/// A value, and for each wait to come the value that it leaves and whether it times out. For tests and proofs of
/// conditions.
#[derive(Drop)]
pub struct Script<T> {
    value: T,
    waits: IntoIter<(T, bool)>,
}

impl<T: Drop> Script<T> {
    /// Makes a script of its entries, or `None` of no entry. The first entry is the present value, and its flag is
    /// ignored. Each wait goes to the next entry.
    pub fn new(entries: Vec<(T, bool)>) -> Option<Script<T>>
        ensures none { IsNone result ↔ (entries.items ≡ []) }
        ensures some { IfSome result (λ script.
            (flag : Bool) × (entries.items ≡ (present_value script, flag) ∷ waits_to_come script)) }
    {
        let mut waits = entries.into_iter();
        let (value, _) = waits.next()?;
        Some(Script { value, waits })
    }
}

impl<T: Drop> Waits for Script<T> {
    type Value = T;

    ghost current = { present_value };

    ghost with_current = { with_present_value };

    ghost wait_gives = { WaitGives };

    ghost current_with = { λ script value. refl };

    fn value(&mut self) -> &mut T {
        &mut self.value
    }

    fn wait(&mut self) -> Option<bool> {
        let (value, timed_out) = self.waits.next()?;
        self.value = value;
        Some(timed_out)
    }
}
