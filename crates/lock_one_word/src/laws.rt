//! What the rule of the word means. The law is the contract of a function with an empty body.
ghost use Rattle.lock_one_word.specs.Legal.{EveryStateIsLegal};

use crate::rule::{OneRule, OneView};
use atomic_table::TableRule;

/// The law of every `WordLock`, between any two atomic steps of any threads.
///
/// The word encodes what all parties hold, and the bar of a waiting writer. What they hold is compatible. A party is a
/// token, or a call that has not ended. A call that ends without a token holds nothing.
///
/// A table sees no sleep. `lock_one::every_run_is_served` says of the machine, whose actions a `WordLock` makes, that no
/// sleeper is forgotten.
pub fn every_state_is_legal()
    ensures { EveryStateIsLegal ⟦<OneRule as TableRule<(), OneView, u64>>⟧.holds }
{}
