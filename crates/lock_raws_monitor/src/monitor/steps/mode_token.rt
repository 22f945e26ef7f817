//! The token of a monitor.
ghost use Rattle.std.specs.Prelude.{◌≡◌, true};
ghost use Rattle.lock_raws_monitor.specs.ModeTokens.{mode_of, same_mode};

use lock_modes::Mode;
use std::snapshot::Snapshot;

/// A token of an arbiter. Contracts see its mode, which has no bytes.
///
/// It has no `Drop` and no `Clone`, and only the steps of a `Monitor` open it. So no other code gives it another mode.
pub struct ModeToken<T> {
    pub(super) token: T,
    pub(super) mode: Snapshot<Mode>,
}

impl<T> ModeToken<T> {
    pub(super) fn new(token: T, mode: Mode) -> ModeToken<T>
        ensures token { result.token ≡ token }
        ensures mode { mode_of result ≡ mode }
        ensures same { same_mode mode (mode_of result) ≡ true }
    {
        ModeToken {
            token,
            mode: Snapshot::of(&mode),
        }
    }
}
