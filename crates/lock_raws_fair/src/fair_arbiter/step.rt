//! The steps of a fair lock.
use lock_modes::Mode;

/// One step of a `FairArbiter`. It exists in contracts only.
pub enum FairStep {
    /// An acquisition joins the line under the next ticket.
    Arrive,
    /// The acquisition with this ticket ends without being admitted.
    Leave(u64),
    /// The acquisition with this ticket is admitted.
    Enter(u64, Mode),
    /// An acquisition is admitted without a ticket.
    Pass(Mode),
    /// A token is released, or gets another mode, or nothing changes.
    Keep,
    /// An upgrade announces itself, and waits from now on.
    Announce,
    /// The upgrade that waits is admitted, or withdrawn.
    EndUpgrade,
}
