//! Worlds: parties that step on one packed word, in any order.
ghost use Rattle.std.specs.Prelude.{◌≡◌, ◌↔◌, ◌+◌, ◌<◌, ◌≤◌, IfOk, IfErr, IfSome, IfNone, Some, None, length, OnOk, OnErr};
ghost use Rattle.lock_modes.specs.Modes.{count_of, AreCompatible};
ghost use Rattle.lock_modes.specs.Limits.{IsLimit, IsMakerFault};
ghost use Rattle.lock_word.specs.Holders.{holder_at};
ghost use Rattle.lock_word.specs.Word.{word_of};
ghost use Rattle.lock_word.specs.Rule.{held_by_all, others_wins};
ghost use Rattle.lock_word.specs.Worlds.{IsOfParty, IsUnknownIn, after_step, new_world, world_after, outcomes, IsReachable};
ghost use Rattle.lock_word.specs.Claims.{Leaves, BarIsOfOne, FailsAreBounded, IsRefusedByLoad, AreRefusedByLoads, changes_from, IsRunByParties, IsRunOnAll};

use lock_modes::{Fault, Mode, is_limit};
use lock_word::WorldParty;
pub use lock_word::{AtomicStep, Down, ExWant, Outcome};
use std::alloc::Global;
use std::marker::Model;

/// Parties, numbered from 1, that step on one packed word, one atomic step at a time. Any list of steps is an
/// interleaving.
#[derive(Drop)]
pub struct World {
    word: u64,
    readers: u64,
    steps: u64,
    parties: Vec<WorldParty>,
}

impl Model for World {
    ghost use Rattle.lock_word.specs.Worlds.{WorldState, IsReachable};

    ghost Value = { WorldState };

    ghost view = { λ w.
        record { word = w.word; readers = w.readers; steps = w.steps; parties = w.parties.items } };

    ghost invariant = { λ w.
        IsReachable record { word = w.word; readers = w.readers; steps = w.steps; parties = w.parties.items } };
}

/// Returns the index of a party, if the party exists.
fn place_of(parties: &[WorldParty], party: u64) -> Option<usize>
    ensures unknown { IfNone result (holder_at parties.now party ≡ None) }
    ensures known { IfSome result (λ place. (party ≡ place + 1) × (place < length parties.now)) }
{
    if party == 0 || (parties.len() as u64) < party {
        return None;
    }
    Some((party - 1) as usize)
}

impl World {
    /// Makes a world of `parties` parties that hold nothing, with this readers' limit.
    pub fn new(alloc: Global, parties: u64, readers: u64) -> Result<World, Fault>
        ensures limits { (result ≡ Err Fault.BadLimits) ↔ ((IsLimit parties × IsLimit readers) → ⊥) }
        ensures in_range { OnOk result (IsLimit parties × IsLimit readers) }
        ensures fault { IfErr result IsMakerFault }
        ensures free { IfOk result (λ world. world ≡ new_world parties readers) }
    {
        if !is_limit(parties) || !is_limit(readers) {
            return Err(Fault::BadLimits);
        }
        let parties = vec![in alloc; WorldParty::idle(); parties as usize]?;
        Ok(World {
            word: 0,
            readers,
            steps: 0,
            parties,
        })
    }

    /// Returns the word. It encodes what all parties hold, which is compatible, and the bar of the one party that
    /// announced itself.
    pub fn word(&self) -> u64
        ensures value { result ≡ self.now.word }
        ensures coded { result ≡ word_of (held_by_all self.now.parties) }
        ensures legal { AreCompatible self.now.readers (held_by_all self.now.parties).bag }
        ensures bar { BarIsOfOne result self.now.parties }
    {
        self.word
    }

    /// Returns how many holds of the mode a party has.
    pub fn holds(&self, party: u64, mode: Mode) -> Result<u64, Fault>
        ensures known { IfOk result (λ n. IsOfParty self.now party (λ me. n ≡ count_of me.held.bag mode)) }
        ensures unknown { IfErr result (IsUnknownIn self.now party) }
    {
        Ok(self.party(party)?.held.bag.count(mode))
    }

    /// Returns whether a party has announced itself.
    pub fn announced(&self, party: u64) -> Result<bool, Fault>
        ensures known { IfOk result (λ is. IsOfParty self.now party (λ me. is ≡ me.held.announced)) }
        ensures unknown { IfErr result (IsUnknownIn self.now party) }
    {
        Ok(self.party(party)?.held.announced)
    }

    /// Returns how many exchanges and subtractions of a party changed the word.
    pub fn wins(&self, party: u64) -> Result<u64, Fault>
        ensures known { IfOk result (λ n. IsOfParty self.now party (λ me. n ≡ me.wins)) }
        ensures unknown { IfErr result (IsUnknownIn self.now party) }
    {
        Ok(self.party(party)?.wins)
    }

    /// Returns how many exchanges of a party found the word changed. They are at most the wins of the other parties.
    pub fn fails(&self, party: u64) -> Result<u64, Fault>
        ensures known { IfOk result (λ n. IsOfParty self.now party (λ me. n ≡ me.fails)) }
        ensures bounded { IfOk result (λ n. IsOfParty self.now party (λ me. n ≤ others_wins self.now.parties me)) }
        ensures unknown { IfErr result (IsUnknownIn self.now party) }
    {
        Ok(self.party(party)?.fails)
    }

    fn party(&self, party: u64) -> Result<WorldParty, Fault>
        ensures known { IfOk result (λ me. holder_at self.now.parties party ≡ Some me) }
        ensures bounded { IfOk result (λ me. me.fails ≤ others_wins self.now.parties me) }
        ensures unknown { IfErr result (IsUnknownIn self.now party) }
    {
        match place_of(self.parties.as_slice(), party) {
            Some(place) => Ok(self.parties[place]),
            None => Err(Fault::UnknownParty),
        }
    }

    /// Makes one step.
    ///
    /// It refuses, in this order: any step after 2^64 - 1 steps, a step of an unknown party, a step that needs a hold
    /// that the party does not have, and an exchange without an open load.
    pub fn step(&mut self, step: AtomicStep) -> Outcome
        ensures outcome { result ≡ (after_step self.old step).outcome }
        ensures after { self.new ≡ (after_step self.old step).world }
        ensures leaves { Leaves result self.old self.new }
        ensures refuses { IsRefusedByLoad self.old step result }
        ensures reached { IsReachable self.new }
    {
        if self.steps == u64::MAX {
            return Outcome::Refused(Fault::NumbersSpent);
        }
        let Some(place) = place_of(self.parties.as_slice(), step.party()) else {
            return Outcome::Refused(Fault::UnknownParty);
        };
        let outcome = self.parties[place].make(self.readers, &mut self.word, step);
        self.steps = outcome.steps_after(self.steps);
        outcome
    }

    /// Makes all steps in order. Only the list of outcomes allocates, before the first step.
    pub fn run(&mut self, alloc: Global, steps: &[AtomicStep]) -> Result<Vec<Outcome>, Fault>
        ensures outcomes { IfOk result (λ made. made.items ≡ outcomes self.old steps.now) }
        ensures after { OnOk result (self.new ≡ world_after self.old steps.now) }

        // The steps that were done are, in order, a run of the modes: by the parties, and on what all of them hold.
        ensures by_parties { OnOk result (IsRunByParties self.old (changes_from self.old steps.now) self.new) }
        ensures run { OnOk result (IsRunOnAll self.old (changes_from self.old steps.now) self.new) }
        ensures refuses { OnOk result (AreRefusedByLoads self.old steps.now) }

        ensures coded { self.new.word ≡ word_of (held_by_all self.new.parties) }
        ensures legal { AreCompatible self.new.readers (held_by_all self.new.parties).bag }
        ensures bar { BarIsOfOne self.new.word self.new.parties }
        ensures bounded { FailsAreBounded self.new.parties }
        ensures fault { IfErr result (λ fault. fault ≡ Fault.OutOfMemory) }
        ensures refused { OnErr result (self.new ≡ self.old) }
    {
        // Reading a field gives the proof the invariant of the world.
        let _ = &self.word;
        let mut made = Vec::with_capacity(alloc, steps.len())?;
        for step in steps {
            let outcome = self.step(*step);
            made.push_reserved(outcome);
        }
        Ok(made)
    }
}
