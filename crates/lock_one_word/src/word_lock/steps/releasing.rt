//! A release, before its first step.
ghost use Rattle.std.specs.Prelude.{◌≡◌, true};
ghost use Rattle.lock_one.specs.declared.action.Action.TheVariants.{End};
ghost use Rattle.lock_one.specs.Machine.{next_of, taking};

use lock_word::Down;

/// A call that releases or downgrades, before its first step.
///
/// A `Pending` is not made while nothing contends. This has no `Drop`: it ends where the machine asks for the end, so that a
/// body cannot forget a wake-up, or goes on as an `Unreleased`.
pub(crate) struct Releasing {
    pub(super) readers: u64,
    pub(super) down: Down,
}

impl Releasing {
    /// Ends the call after the exchange that released.
    pub(super) fn end(self, found: u64)
        requires { (next_of found (taking self.readers self.down).0).1 ≡ End true }
    {
        let Releasing {
            readers: _,
            down: _,
        } = self;
    }

    /// Ends the call after the subtraction that released.
    pub(super) fn end_after(self, looked: u64, found: u64)
        requires { (next_of found (next_of looked (taking self.readers self.down).0).0).1 ≡ End true }
    {
        let Releasing {
            readers: _,
            down: _,
        } = self;
    }
}
