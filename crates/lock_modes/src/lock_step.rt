//! Steps on the modes and the bar.
use crate::ModeStep;

/// One step on the modes that are held, or on the bar.
#[derive(Clone, Copy, PartialEq, Eq, Debug)]
pub enum LockStep {
    /// A step on the modes. Acquiring exclusively clears the bar of the party that acquires.
    Modes(ModeStep),
    /// Sets the bar.
    Announce,
    /// Clears the bar.
    Withdraw,
}
