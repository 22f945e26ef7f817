//! Atomic steps of parties, and their outcomes.
ghost use Rattle.std.specs.Prelude.{◌≡◌};

use crate::down::Down;
use crate::want::ExWant;
use lock_modes::Fault;

/// One atomic step of a party. Parties are numbered from 1.
#[derive(Clone, Copy, PartialEq, Eq, Debug)]
pub enum AtomicStep {
    /// Loads the word, which becomes the party's open load.
    Load(u64),
    /// Compare-exchange: replaces the word if it is still the party's open load and admits what is wanted.
    Exchange(u64, ExWant),
    /// Subtracts from the word: a release, a downgrade or a withdrawal.
    Take(u64, Down),
}

impl AtomicStep {
    ghost use Rattle.lock_word.specs.Turns.{party_of};

    /// Returns the number of the party that makes the step.
    pub fn party(self) -> u64
        ensures { result ≡ party_of self }
    {
        match self {
            AtomicStep::Load(party) | AtomicStep::Exchange(party, _) | AtomicStep::Take(party, _) =>
                party,
        }
    }
}

/// The outcome of a step.
#[derive(Clone, Copy, PartialEq, Eq, Debug)]
pub enum Outcome {
    /// The word that was loaded.
    Loaded(u64),
    /// The exchange or the subtraction changed the word.
    Done,
    /// The open load does not admit what is wanted. Nothing was exchanged.
    NotAdmitted,
    /// The word is no longer the open load. Nothing was exchanged.
    Changed,
    /// The step was refused, and changed nothing.
    Refused(Fault),
}

impl Outcome {
    ghost use Rattle.std.specs.Prelude.{◌-◌, ◌^◌, ◌<◌};
    ghost use Rattle.lock_word.specs.Turns.{steps_after};

    /// Returns how many steps are done, of which `before` came before this one. A refused step does not count.
    pub fn steps_after(&self, before: u64) -> u64
        requires { before < 2 ^ 64 - 1 }
        ensures { result ≡ steps_after before self.now }
    {
        match self {
            Outcome::Refused(_) => before,
            _ => before + 1,
        }
    }
}
