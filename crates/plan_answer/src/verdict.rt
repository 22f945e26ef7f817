//! Whether a plan stops.
use lock_plan::Explored;
use lock_plan_order::LockOrder;

/// Whether some interleaving of a plan's calls leads into a stop.
#[derive(Clone, Copy, PartialEq, Eq, Debug)]
pub enum Verdict {
    NeverStops,
    Stops,
    /// No order of the locks says that it never stops.
    Unordered,
}

impl Verdict {
    /// Returns what a search found.
    pub(crate) fn of(explored: &Explored) -> Verdict {
        match explored.trace {
            None => Verdict::NeverStops,
            Some(_) => Verdict::Stops,
        }
    }

    /// Returns what a look for an order found.
    pub(crate) fn of_order(order: &LockOrder) -> Verdict {
        match order {
            LockOrder::Kept(_) | LockOrder::NoCircle => Verdict::NeverStops,
            LockOrder::Broken(_) => Verdict::Unordered,
        }
    }
}
