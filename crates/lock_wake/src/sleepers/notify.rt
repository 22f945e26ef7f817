//! How a thread notifies those that wait.
ghost use Rattle.std.specs.Prelude.{◌≡◌, true, false};

use crate::sleepers::event_count::{EventCount, Notified};
use lock_events::EventAction;

impl EventCount {
    /// Ends the epoch if a wait is not claimed, claims one, and wakes one thread that sleeps. Otherwise one load.
    pub fn notify_one(&self) -> Notified
        ensures events { result.events ≡ self.now }
        ensures one { result.all ≡ false }
    {
        self.notify(false)
    }

    /// Ends the epoch if a wait is counted, and wakes all threads that sleep. One load if none is counted.
    pub fn notify_all(&self) -> Notified
        ensures events { result.events ≡ self.now }
        ensures all { result.all ≡ true }
    {
        self.notify(true)
    }

    fn notify(&self, all: bool) -> Notified
        ensures events { result.events ≡ self.now }
        ensures all { result.all ≡ all }
    {
        let mut call = self.begin_notify(all);
        while let EventAction::Exchange(old, new) = call.action() {
            self.exchange(&mut call, old, new);
        }
        if let EventAction::Or(bits) = call.action() {
            self.set_bits(&mut call, bits);
        }
        match call.action() {
            EventAction::End(_) => self.skip(call, all),
            _ => {
                let owed = call.owed();
                self.wake(call, owed, all)
            }
        }
    }
}
