ghost use Rattle.std.specs.Prelude.{◌≡◌};

/// Whether a wait ended by a timeout.
#[derive(Clone, Copy, PartialEq, Eq, Debug)]
pub struct WaitTimeoutResult {
    pub(crate) timed_out: bool,
}

impl WaitTimeoutResult {
    ghost use Rattle.lock_mutex.specs.WaitsWhile.{has_timed_out};

    /// Returns whether the wait ended by a timeout.
    pub fn timed_out(self) -> bool
        ensures { result ≡ has_timed_out self }
    {
        self.timed_out
    }
}
