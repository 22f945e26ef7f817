//! The rule of the word and of all views.
ghost use Rattle.lock_word.specs.Seats.{IsKept, newcomer, newcomer_beside};

use crate::party::WorldParty;
use atomic_table::{Split, TableRule};

/// The seat's view of a party: what the rule keeps of it. It exists in contracts only.
pub struct SeatView {
    /// What the party holds, its open load, its wins and fails.
    pub state: WorldParty,
    /// The word that it loaded last.
    pub last: u64,
    /// How often it loaded the word.
    pub loads: u64,
    /// The readers' limit. A step cannot see the key of its table.
    pub readers: u64,
}

/// The rule of a word and of the parties that step on it. The key of the table is the readers' limit.
pub struct WordRule;

impl TableRule<(), SeatView, u64> for WordRule {
    ghost holds = { IsKept };

    ghost first = { newcomer };
}

/// A split: the first keeps everything, and the second is a newcomer.
pub(crate) struct SplitOff;

impl Split<SeatView> for SplitOff {
    ghost left = { λ v. v };

    ghost right = { newcomer_beside };
}
