//! The time and the memory of a look for an order.
ghost use Rattle.std.specs.Prelude.{◌≡◌};

use crate::no_answer::NoAnswer;
use step_search::Budget;

/// How many bytes to reckon for each pair of a lock that is held and one that is wanted: a pair has 32, and a list that grows
/// has its pairs twice.
const PAIR_BYTES: usize = 96;

/// Ends a look for an order when the time of a search ends, or when its pairs have no room.
#[derive(Drop)]
pub(crate) struct OrderBudget<'a, B> {
    time: &'a mut B,
    /// There is room for so many pairs.
    room: usize,
    is_full: bool,
    has_ended: bool,
}

impl<'a, B: Budget> OrderBudget<'a, B> {
    /// Makes a budget of this time, and so many bytes for the pairs.
    pub(crate) fn new(time: &'a mut B, bytes: usize) -> OrderBudget<'a, B> {
        OrderBudget {
            time,
            room: bytes / PAIR_BYTES,
            is_full: false,
            has_ended: false,
        }
    }

    /// Returns why there is no answer once the budget has ended.
    pub(crate) fn no_answer(&self) -> NoAnswer {
        if self.is_full {
            NoAnswer::OutOfMemory
        } else {
            NoAnswer::Late
        }
    }
}

impl<B: Budget> Budget for OrderBudget<'_, B> {
    ghost has_ended = { λ budget. budget.has_ended };

    fn lasts(&mut self, listed: usize) -> bool {
        self.is_full = self.is_full || listed > self.room;
        if self.is_full || !self.time.lasts(listed) {
            self.has_ended = true;
        }
        !self.has_ended
    }
}
