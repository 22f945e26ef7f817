//! Counters: flags, counters, semaphores and channels.

/// What a counter is.
#[derive(Clone, Copy, PartialEq, Eq)]
pub enum CounterKind {
    /// A counter of 0 to 1.
    Flag,
    Counter,
    Semaphore,
    Channel,
}

/// A counter: its kind, its greatest value, and its first one.
#[derive(Clone, Copy)]
pub struct Counter {
    pub kind: CounterKind,
    pub most: usize,
    pub first: usize,
}

impl CounterKind {
    /// Returns the word that declares it.
    pub fn word(self) -> &'static str {
        match self {
            CounterKind::Flag => "flag",
            CounterKind::Counter => "counter",
            CounterKind::Semaphore => "semaphore",
            CounterKind::Channel => "channel",
        }
    }

    /// Returns the word that moves it up, or down.
    pub fn move_word(self, is_up: bool) -> &'static str {
        match (self, is_up) {
            (CounterKind::Flag | CounterKind::Counter, true) => "add",
            (CounterKind::Flag | CounterKind::Counter, false) => "take",
            (CounterKind::Semaphore, true) => "release",
            (CounterKind::Semaphore, false) => "acquire",
            (CounterKind::Channel, true) => "send",
            (CounterKind::Channel, false) => "receive",
        }
    }
}

impl Counter {
    /// Makes a flag.
    pub fn flag(value: bool) -> Counter {
        Counter {
            kind: CounterKind::Flag,
            most: 1,
            first: usize::from(value),
        }
    }

    /// Returns how many values there are.
    pub fn values(self) -> usize {
        self.most.saturating_add(1)
    }

    /// Returns the value at a place of its program. The first place has the first value.
    pub fn value(self, place: usize) -> usize {
        self.first
            .saturating_add(place)
            .checked_rem(self.values())
            .unwrap_or(0)
    }

    /// Returns the place of its program with this value.
    pub fn place(self, value: usize) -> usize {
        value
            .saturating_add(self.values())
            .saturating_sub(self.first)
            .checked_rem(self.values())
            .unwrap_or(0)
    }
}
