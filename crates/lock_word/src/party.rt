//! A party of a world.
ghost use Rattle.std.specs.Prelude.{◌≡◌, ◌-◌, ◌^◌, ◌<◌, ◌≤◌, IsTrue};

use crate::down::Down;
use crate::step::{AtomicStep, Outcome};
use crate::want::ExWant;
use lock_modes::{Fault, Hold, LockStep};

/// The world's view of a party: what it holds, its open load, and how often it won and failed.
#[derive(Clone, Copy, PartialEq, Eq, Debug)]
pub struct WorldParty {
    pub held: Hold,
    /// The open load: the word that the party loaded last, until its next exchange or subtraction.
    pub loaded: Option<u64>,
    /// How many exchanges and subtractions changed the word.
    pub wins: u64,
    /// How many exchanges found the word changed.
    pub fails: u64,
}

impl WorldParty {
    ghost use Rattle.lock_modes.specs.Modes.{tokens};
    ghost use Rattle.lock_modes.specs.Holds.{hold_has};
    ghost use Rattle.lock_word.specs.Word.{word_of};
    ghost use Rattle.lock_word.specs.Turns.{idle, after_win, load_turn, exchange_turn, take_turn, turn, CanStep};

    /// Makes a party that has done nothing yet.
    pub fn idle() -> WorldParty
        ensures { result ≡ idle }
    {
        WorldParty {
            held: Hold::none(),
            loaded: None,
            wins: 0,
            fails: 0,
        }
    }

    /// Makes one step of this party on the word. The party number in the step is not looked at.
    pub fn make(&mut self, readers: u64, word: &mut u64, step: AtomicStep) -> Outcome
        requires { CanStep word.old self.old }
        ensures word { word.new ≡ (turn readers word.old self.old step).word }
        ensures party { self.new ≡ (turn readers word.old self.old step).party }
        ensures outcome { result ≡ (turn readers word.old self.old step).outcome }
    {
        match step {
            AtomicStep::Load(_) => self.load(*word),
            AtomicStep::Exchange(_, want) => self.exchange(readers, word, want),
            AtomicStep::Take(_, down) => self.take(word, down),
        }
    }

    fn load(&mut self, word: u64) -> Outcome
        ensures party { self.new ≡ (load_turn word self.old).party }
        ensures outcome { result ≡ (load_turn word self.old).outcome }
    {
        self.loaded = Some(word);
        Outcome::Loaded(word)
    }

    fn exchange(&mut self, readers: u64, word: &mut u64, want: ExWant) -> Outcome
        requires { CanStep word.old self.old }
        ensures word { word.new ≡ (exchange_turn readers word.old self.old want).word }
        ensures party { self.new ≡ (exchange_turn readers word.old self.old want).party }
        ensures outcome { result ≡ (exchange_turn readers word.old self.old want).outcome }
    {
        if !self.held.has(want.step()) {
            return Outcome::Refused(Fault::WrongMode);
        }
        let Some(loaded) = self.loaded else {
            return Outcome::Refused(Fault::NoLoad);
        };
        let Some(next) = want.exchanged(self.held.announced, readers, loaded) else {
            self.loaded = None;
            return Outcome::NotAdmitted;
        };
        if *word != loaded {
            self.loaded = None;
            self.fails += 1;
            return Outcome::Changed;
        }
        *word = next;
        self.win(want.step());
        Outcome::Done
    }

    fn take(&mut self, word: &mut u64, down: Down) -> Outcome
        requires { CanStep word.old self.old }
        ensures word { word.new ≡ (take_turn word.old self.old down).word }
        ensures party { self.new ≡ (take_turn word.old self.old down).party }
        ensures outcome { result ≡ (take_turn word.old self.old down).outcome }
    {
        if !self.held.has(down.step()) {
            return Outcome::Refused(Fault::WrongMode);
        }
        *word -= down.amount();
        self.win(down.step());
        Outcome::Done
    }

    fn win(&mut self, step: LockStep)
        requires had { IsTrue (hold_has self.old.held step) }
        requires room { tokens self.old.held.bag < 2 ^ 64 - 1 }
        requires counts { self.old.wins < 2 ^ 64 - 1 }
        ensures { self.new ≡ after_win self.old step }
    {
        self.held = self.held.after(step);
        self.loaded = None;
        self.wins += 1;
    }
}
