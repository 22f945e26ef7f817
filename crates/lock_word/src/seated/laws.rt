//! What the rule of the table means. The law is the contract of a function with an empty body.
ghost use Rattle.lock_word.specs.Seats.{EveryStateKeepsRule};

use crate::seated::rule::{SeatView, WordRule};
use atomic_table::TableRule;

/// Between any two steps of any threads, the word and all parties keep the rule that a `World` keeps. The word encodes
/// what all parties hold, which is compatible, and the bar of the one party that announced itself. No party has failed
/// more often than the others have won. While a party is announced, no guard comes that was not in the word it loaded
/// last.
pub fn every_state_keeps_rule()
    ensures { EveryStateKeepsRule ⟦<WordRule as TableRule<(), SeatView, u64>>⟧.holds }
{}
