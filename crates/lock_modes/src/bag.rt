//! Bags: how many of each mode are held.
use crate::{Mode, ModeStep};

/// How many of each mode are held: the multiset of modes, as three counts.
#[derive(Clone, Copy, PartialEq, Eq, Debug)]
pub struct Bag {
    pub shared: u64,
    pub exclusive: u64,
    pub upgradable: u64,
}

impl Bag {
    ghost use Rattle.std.specs.Prelude.{◌≡◌, ◌-◌, ◌<◌, ◌^◌, IsTrue};
    ghost use Rattle.lock_modes.specs.Modes.{empty_bag, tokens, count_of, one_more, one_less, admits, may_become};
    ghost use Rattle.lock_modes.specs.ModeRuns.{has, bag_after};

    /// Makes the empty bag.
    pub fn empty() -> Bag
        ensures { result ≡ empty_bag }
    {
        Bag {
            shared: 0,
            exclusive: 0,
            upgradable: 0,
        }
    }

    /// Returns the bag with one more of the mode.
    pub fn one_more(self, mode: Mode) -> Bag
        requires { tokens self < 2 ^ 64 - 1 }
        ensures { result ≡ one_more self mode }
    {
        match mode {
            Mode::Shared => Bag {
                shared: self.shared + 1,
                ..self
            },
            Mode::Exclusive => Bag {
                exclusive: self.exclusive + 1,
                ..self
            },
            Mode::Upgradable => Bag {
                upgradable: self.upgradable + 1,
                ..self
            },
        }
    }

    /// Returns how many are held, of all modes.
    pub fn tokens(&self) -> u64
        requires { tokens self.now < 2 ^ 64 }
        ensures { result ≡ tokens self.now }
    {
        self.shared + self.exclusive + self.upgradable
    }

    /// Returns whether the mode is admitted next to those held, of which at most `limit` may read.
    pub fn admits(&self, limit: u64, mode: Mode) -> bool
        requires { tokens self.now < 2 ^ 64 }
        ensures { result ≡ admits limit self.now mode }
    {
        let readers = self.shared + self.upgradable;
        match mode {
            Mode::Shared => self.exclusive == 0 && readers < limit,
            Mode::Exclusive => self.tokens() == 0,
            Mode::Upgradable => self.exclusive == 0 && self.upgradable == 0 && readers < limit,
        }
    }

    /// Returns whether a holder may change to this mode now. An upgrade needs the holder to be the only one.
    pub fn may_become(&self, mode: Mode) -> bool
        requires { tokens self.now < 2 ^ 64 }
        ensures { result ≡ may_become self.now mode }
    {
        match mode {
            Mode::Exclusive => self.tokens() == 1,
            Mode::Shared | Mode::Upgradable => true,
        }
    }

    /// Returns how many of the mode are held.
    pub fn count(&self, mode: Mode) -> u64
        ensures { result ≡ count_of self.now mode }
    {
        match mode {
            Mode::Shared => self.shared,
            Mode::Exclusive => self.exclusive,
            Mode::Upgradable => self.upgradable,
        }
    }

    /// Returns the bag with one less of the mode.
    pub fn one_less(self, mode: Mode) -> Bag
        requires { 0 < count_of self mode }
        ensures { result ≡ one_less self mode }
    {
        match mode {
            Mode::Shared => Bag {
                shared: self.shared - 1,
                ..self
            },
            Mode::Exclusive => Bag {
                exclusive: self.exclusive - 1,
                ..self
            },
            Mode::Upgradable => Bag {
                upgradable: self.upgradable - 1,
                ..self
            },
        }
    }

    /// Returns whether the bag has the mode that the step releases or changes.
    pub fn has(&self, step: ModeStep) -> bool
        ensures { result ≡ has self.now step }
    {
        match step {
            ModeStep::Acquire(_) => true,
            ModeStep::Release(mode) | ModeStep::Change(mode, _) => 0 < self.count(mode),
        }
    }

    /// Returns the bag after the step.
    pub fn after(self, step: ModeStep) -> Bag
        requires had { IsTrue (has self step) }
        requires room { tokens self < 2 ^ 64 - 1 }
        ensures { result ≡ bag_after self step }
    {
        match step {
            ModeStep::Acquire(mode) => self.one_more(mode),
            ModeStep::Release(mode) => self.one_less(mode),
            ModeStep::Change(from, to) => self.one_less(from).one_more(to),
        }
    }
}
