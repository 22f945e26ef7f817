//! The steps of a line.

/// One step of a line.
#[derive(Clone, Copy, PartialEq, Eq, Debug)]
pub enum LineStep {
    /// An acquisition joins the line under the next ticket.
    Arrive,
    /// The acquisition with this ticket is admitted.
    Enter(u64),
    /// The acquisition with this ticket ends without being admitted.
    Leave(u64),
    /// An acquisition is admitted without a ticket.
    Pass,
}
