//! The rule of an event count.
use atomic_table::TableRule;
use lock_events::Begun;

/// The rule of the word and of all calls: that of the machine of `lock_events`.
pub struct CountRule;

impl TableRule<(), Begun, ()> for CountRule {
    ghost use Rattle.lock_events.specs.Events.{waiting};
    ghost use Rattle.lock_events.specs.Runs.{begun_call};
    ghost use Rattle.lock_wake.specs.EventCounts.{IsKeptIn};

    ghost holds = { λ u. IsKeptIn };

    ghost first = { λ u. begun_call waiting };
}
