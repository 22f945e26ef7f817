//! The kinds of the machine.

/// The kind of a machine of guards.
#[derive(Clone, Copy, PartialEq, Eq, Debug)]
pub enum Kind {
    /// One exclusive guard at a time.
    Mutex,
    /// Guards of the three modes.
    RwLock,
    /// Guards of one party at a time, its levels. They only read.
    Reentrant,
}

impl Kind {
    ghost use Rattle.std.specs.Prelude.{◌≡◌};
    ghost use Rattle.lock_modes.specs.Kind.{is_reentrant, is_rwlock};

    /// Returns whether the guards are levels of one owner.
    pub fn is_reentrant(self) -> bool
        ensures { result ≡ is_reentrant self }
    {
        matches!(self, Kind::Reentrant)
    }

    /// Returns whether guards have the three modes.
    pub fn is_rwlock(self) -> bool
        ensures { result ≡ is_rwlock self }
    {
        matches!(self, Kind::RwLock)
    }
}
