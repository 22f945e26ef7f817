//! The event count.
ghost use Rattle.std.specs.Prelude.{◌≡◌, IfErr};
ghost use Rattle.lock_modes.specs.declared.fault.Fault.TheVariants as fault;

mod call;
mod notified;
mod registered;
mod slept;

use crate::sleepers::rule::CountRule;
use atomic_table::Table;
use lock_events::Begun;
use lock_modes::Fault;
pub use notified::Notified;
pub use registered::Registered;
pub use slept::Slept;
use std::alloc::Global;
use std::marker::Model;

/// The word: a count of waits, how many of them are not claimed, and the epoch, which a notification ends.
const WORD: usize = 0;

/// An event count: threads that sleep until a notification.
///
/// A thread first registers, then checks again whether it has to sleep, and then sleeps or leaves. In the other order, a
/// notification between the check and the sleep would be lost. None is lost to a registered wait: see
/// `every_state_wakes_the_registered`. It makes the actions of `EventCall`, and only the modules below this one reach its
/// word.
#[derive(Drop)]
pub struct EventCount {
    table: Table<(), Begun, (), CountRule, Global>,
}

impl Model for EventCount {
    ghost use Rattle.std.specs.Prelude.{◌≡◌};
    ghost use Rattle.atomic_table.specs.Seated.{TableId};

    ghost Value = { TableId };

    ghost view = { λ e. e.table.shared.table_id };

    ghost invariant = { λ e. e.table.shared.table_id.words ≡ 1 };
}

impl EventCount {
    /// Makes an event count without waits. No other call allocates.
    pub fn new(alloc: Global) -> Result<EventCount, Fault>
        ensures { IfErr result (λ error. error ≡ fault.OutOfMemory) }
    {
        match Table::of_words(alloc, &[0], &()) {
            Ok((table, _)) => Ok(EventCount { table }),
            Err(_) => Err(Fault::OutOfMemory),
        }
    }
}
