//! The modes of guards.

/// The mode in which a guard holds its lock.
#[derive(Clone, Copy, PartialEq, Eq, Debug)]
pub enum Mode {
    /// Next to other shared guards and an upgradable one. It reads.
    Shared,
    /// Alone. It reads and writes.
    Exclusive,
    /// Next to shared guards. It reads, and can become exclusive.
    Upgradable,
}

impl Mode {
    ghost use Rattle.std.specs.Prelude.{◌≡◌};
    ghost use Rattle.lock_modes.specs.Bar.{passes_bar};

    /// Returns whether the bar lets a party acquire the mode. `is_own` says whether the party set the bar.
    pub fn passes_bar(self, is_barred: bool, is_own: bool) -> bool
        ensures { result ≡ passes_bar is_barred is_own self }
    {
        !is_barred || self == Mode::Exclusive && is_own
    }
}
