//! What the rule of an event count means. The law is the contract of a function with an empty body.
ghost use Rattle.lock_wake.specs.EventCounts.{EveryStateWakesTheRegistered};

use crate::sleepers::CountRule;
use atomic_table::TableRule;
use lock_events::Begun;

/// The law of every `EventCount`, between any two steps of any threads.
///
/// No notification is lost to a registered wait, whatever epoch it loaded. If a wait may sleep, each `notify_all` that has
/// ended began before the wait registered. If it may still park, so did each `notify_one` that has ended.
pub fn every_state_wakes_the_registered()
    ensures { EveryStateWakesTheRegistered ⟦<CountRule as TableRule<(), Begun, ()>>⟧.holds }
{}
