//! A call on a condition variable, step by step.
ghost use Rattle.std.specs.Prelude.{◌≡◌, true};

use crate::action::EventAction;
use crate::stage::EventStage;
use crate::word::{EventWord, LAST_EPOCH, ONE_WAIT};

/// So many exchanges a notification may lose. Then it begins the last epoch by a step that cannot be lost.
const MOST_LOST: u32 = 1000;

/// A call on a condition variable between two of its steps: a wait, or a notification.
///
/// A wait first registers, then releases its mutex, and then sleeps. In another order, a notification between the release
/// and the registration would be lost.
#[derive(Clone, Copy, PartialEq, Eq, Debug)]
pub struct EventCall {
    /// The step whose answer the call awaits.
    pub stage: EventStage,
    /// Whether the notification wakes all waits. A wait does not read it.
    pub all: bool,
    /// Whether the deadline of the wait has passed.
    pub late: bool,
    /// How many exchanges the notification has lost.
    pub lost: u32,
    /// The word that the call found last, as `EventWord` decodes it.
    pub loaded: u64,
    /// The epoch in which a wait sleeps, or which begins by a notification.
    pub epoch: u64,
}

impl EventCall {
    ghost use Rattle.lock_events.specs.Events.{waiting, notifying, event_at, event_next, action_of, event_to, wait_at, notify_at, ended_epoch, after_loss, is_notified};

    /// Begins a wait, whose caller holds the mutex. Returns the call and its first action.
    pub fn wait() -> (EventCall, EventAction)
        ensures { result ≡ (waiting, action_of waiting) }
    {
        let call = EventCall {
            stage: EventStage::Look,
            all: false,
            late: false,
            lost: 0,
            loaded: 0,
            epoch: 0,
        };
        (call, EventAction::Load)
    }

    /// Begins a notification of all waits, or of one. Returns the call and its first action.
    pub fn notify(all: bool) -> (EventCall, EventAction)
        ensures { result ≡ (notifying all, action_of (notifying all)) }
    {
        let call = EventCall {
            stage: EventStage::FindWaits,
            all,
            late: false,
            lost: 0,
            loaded: 0,
            epoch: 0,
        };
        (call, EventAction::Load)
    }

    /// Takes the answer to the last action, and returns the next action.
    pub fn next(&mut self, found: u64) -> EventAction
        ensures call { self.new ≡ event_next found self.old }
        ensures action { result ≡ action_of self.new }
    {
        match self.stage {
            EventStage::CountIn if found == self.loaded => {
                self.to(EventStage::Unlock, EventAction::Unlock)
            }
            EventStage::Look | EventStage::CountIn => self.register(found),
            EventStage::Unlock => self.to(EventStage::Sleep, EventAction::Park(self.epoch)),
            EventStage::UnlockAway => self.to(EventStage::YieldAway, EventAction::Yield),
            EventStage::Sleep => self.leave(found),
            EventStage::Leave => self.to(EventStage::Lock, EventAction::Lock),
            EventStage::YieldAway => self.return_away(found),
            EventStage::Lock | EventStage::Waited => self.end_wait(),
            EventStage::EndEpoch if found == self.loaded => self.wake_after_epoch(),
            EventStage::EndEpoch => self.look_after_loss(found),
            EventStage::FindWaits => self.notify_found(found),
            EventStage::EndAllEpochs => self.wake(),
            EventStage::Wake | EventStage::Notified => self.end_notification(EventStage::Notified),
            EventStage::Skipped => self.end_notification(EventStage::Skipped),
        }
    }

    fn register(&mut self, found: u64) -> EventAction
        ensures call { self.new ≡ wait_at found self.old }
        ensures action { result ≡ action_of self.new }
    {
        let word = EventWord::of(found);
        if !word.takes_in() {
            return self.to(EventStage::UnlockAway, EventAction::Unlock);
        }
        let counted = word.with_wait();
        self.loaded = found;
        self.epoch = counted.epoch;
        self.to(
            EventStage::CountIn,
            EventAction::Exchange(found, counted.word()),
        )
    }

    /// Ends a sleep. An answer other than 0 says that the deadline has passed.
    fn leave(&mut self, answer: u64) -> EventAction
        ensures call { self.new ≡ event_at EventStage.Sleep answer self.old }
        ensures action { result ≡ action_of self.new }
    {
        self.late = answer != 0;
        self.to(EventStage::Leave, EventAction::Subtract(ONE_WAIT))
    }

    /// Ends the yield of a wait that did not register. The answer is that of a sleep.
    fn return_away(&mut self, answer: u64) -> EventAction
        ensures call { self.new ≡ event_at EventStage.YieldAway answer self.old }
        ensures action { result ≡ action_of self.new }
    {
        self.late = answer != 0;
        self.to(EventStage::Lock, EventAction::Lock)
    }

    fn end_wait(&mut self) -> EventAction
        ensures call { self.new ≡ event_to EventStage.Waited self.old }
        ensures action { result ≡ action_of self.new }
    {
        let is_in_time = !self.late;
        self.to(EventStage::Waited, EventAction::End(is_in_time))
    }

    fn notify_found(&mut self, found: u64) -> EventAction
        ensures call { self.new ≡ notify_at found self.old }
        ensures action { result ≡ action_of self.new }
    {
        let word = EventWord::of(found);
        self.loaded = found;
        if word.has_none(self.all) {
            return self.end_notification(EventStage::Skipped);
        }
        if word.epoch >= LAST_EPOCH {
            self.epoch = word.epoch;
            return self.wake();
        }
        self.epoch = word.epoch + 1;
        let ended = word.in_next_epoch(self.all).word();
        self.to(EventStage::EndEpoch, EventAction::Exchange(found, ended))
    }

    /// Looks at the word that a lost exchange found. After too many, it begins the last epoch.
    fn look_after_loss(&mut self, found: u64) -> EventAction
        ensures call { self.new ≡ after_loss found self.old }
        ensures action { result ≡ action_of self.new }
    {
        if self.lost < MOST_LOST {
            self.lost += 1;
            return self.notify_found(found);
        }
        self.all = true;
        self.epoch = LAST_EPOCH;
        self.to(EventStage::EndAllEpochs, EventAction::Or(LAST_EPOCH))
    }

    /// Wakes after the exchange that ended the epoch. In the last epoch all are woken, and leave.
    fn wake_after_epoch(&mut self) -> EventAction
        ensures call { self.new ≡ ended_epoch self.old }
        ensures action { result ≡ action_of self.new }
    {
        self.all = self.all || self.epoch == LAST_EPOCH;
        self.wake()
    }

    fn wake(&mut self) -> EventAction
        ensures call { self.new ≡ event_to EventStage.Wake self.old }
        ensures action { result ≡ action_of self.new }
    {
        let action = if self.all {
            EventAction::WakeAll
        } else {
            EventAction::WakeOne
        };
        self.to(EventStage::Wake, action)
    }

    fn end_notification(&mut self, stage: EventStage) -> EventAction
        requires { is_notified stage ≡ true }
        ensures call { self.new ≡ event_to stage self.old }
        ensures action { result ≡ action_of self.new }
    {
        let found_some = EventWord::of(self.loaded).count != 0;
        self.to(stage, EventAction::End(found_some))
    }

    fn to(&mut self, stage: EventStage, action: EventAction) -> EventAction
        ensures call { self.new ≡ event_to stage self.old }
        ensures action { result ≡ action }
    {
        self.stage = stage;
        action
    }
}
