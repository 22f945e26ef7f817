//! The word of a condition variable: a count of waits, how many of them are not claimed, and the epoch.
ghost use Rattle.std.specs.Prelude.{◌≡◌, ◌<◌, ◌+◌, ◌^◌, true};
ghost use Rattle.lock_events.specs.Words.{one_less};

/// The last epoch. No wait registers in it while one is counted. When all have left, the next one begins the epochs anew.
pub const LAST_EPOCH: u64 = 4_294_967_295;

/// At most so many waits are counted.
pub const MOST_WAITS: u64 = 16_777_215;

/// So many waits are not claimed, or more. Then a notification of one claims none.
const MANY: u64 = 255;

/// What one more epoch adds to the word above the epoch.
const EPOCHS: u64 = 4_294_967_296;

/// What a wait subtracts from the word when it ends.
pub const ONE_WAIT: u64 = 1_099_511_627_776;

/// What a word of 64 bits encodes: 24 bits of the count, 8 of the waits that are not claimed, and 32 of the epoch, on which
/// threads sleep.
#[derive(Clone, Copy, PartialEq, Eq, Debug)]
pub struct EventWord {
    /// How many waits are registered.
    pub count: u64,
    /// At most how many of them no notification has claimed, or 255 for any number. It may be above the count.
    pub unclaimed: u64,
    /// The epoch, which a notification ends.
    pub epoch: u64,
}

impl EventWord {
    ghost use Rattle.lock_events.specs.Words.{decoded, encoded, IsSmall, with_wait, in_next_epoch, takes_in, has_none, unclaimed_in};

    /// Decodes a word.
    #[tactic(auto, unfolding(crate::specs::Words::decoded))]
    pub fn of(word: u64) -> EventWord
        ensures decoded { result ≡ decoded word }
        ensures small { IsSmall result }
    {
        EventWord {
            count: word / ONE_WAIT,
            unclaimed: word / EPOCHS % (MANY + 1),
            epoch: word % EPOCHS,
        }
    }

    /// Encodes the word.
    #[tactic(auto, unfolding(crate::specs::Words::encoded))]
    pub fn word(self) -> u64
        requires { IsSmall self }
        ensures { result ≡ encoded self }
    {
        self.count * ONE_WAIT + self.unclaimed * EPOCHS + self.epoch
    }

    /// Returns whether one more wait may register.
    pub fn takes_in(self) -> bool
        ensures { result ≡ takes_in self }
    {
        self.count < MOST_WAITS && (self.count == 0 || self.epoch < LAST_EPOCH)
    }

    /// Returns how many waits are not claimed. A wait that ends subtracts from the count alone, and so takes a claim away, if
    /// there is one.
    pub fn unclaimed_waits(self) -> u64
        ensures { result ≡ unclaimed_in self }
    {
        self.count.min(self.unclaimed)
    }

    /// Returns whether a notification of all has nobody to wake, or one of one. Every counted wait is claimed then.
    pub fn has_none(self, all: bool) -> bool
        ensures { result ≡ has_none all self }
    {
        if all {
            self.count == 0
        } else {
            self.unclaimed_waits() == 0
        }
    }

    /// One more wait registers. The first one begins the epochs anew.
    pub(crate) fn with_wait(self) -> EventWord
        requires small { IsSmall self }
        requires takes_in { takes_in self ≡ true }
        ensures word { result ≡ with_wait self }
        ensures small { IsSmall result }
    {
        if self.count == 0 {
            return EventWord {
                count: 1,
                unclaimed: 1,
                epoch: 0,
            };
        }
        EventWord {
            count: self.count + 1,
            unclaimed: (self.unclaimed_waits() + 1).min(MANY),
            epoch: self.epoch,
        }
    }

    /// A notification ends the epoch, and claims one more wait, or all.
    pub(crate) fn in_next_epoch(self, all: bool) -> EventWord
        requires small { IsSmall self }
        requires early { self.epoch + 1 < 2 ^ 32 }
        ensures word { result ≡ in_next_epoch all self }
        ensures small { IsSmall result }
    {
        let unclaimed = if all {
            0
        } else {
            one_less(self.unclaimed_waits())
        };
        EventWord {
            count: self.count,
            unclaimed,
            epoch: self.epoch + 1,
        }
    }
}

fn one_less(waits: u64) -> u64
    ensures less { result ≡ one_less waits }
    ensures small { result < 2 ^ 8 }
{
    if waits < MANY {
        waits.saturating_sub(1)
    } else {
        MANY
    }
}
