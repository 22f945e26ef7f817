//! Steps on a bag of modes.
use crate::Mode;

/// One step on the modes that are held.
#[derive(Clone, Copy, PartialEq, Eq, Debug)]
pub enum ModeStep {
    /// One more of the mode.
    Acquire(Mode),
    /// One less of the mode.
    Release(Mode),
    /// One of the first mode becomes one of the second.
    Change(Mode, Mode),
}
