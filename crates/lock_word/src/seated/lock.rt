//! The seated lock.
ghost use Rattle.std.specs.Prelude.{◌≡◌, ◌↔◌, ◌+◌, ◌<◌, true, IfOk, IfErr, OnOk, IsTrue};
ghost use Rattle.lock_modes.specs.Limits.{IsLimit, IsMakerFault};
ghost use Rattle.lock_modes.specs.Modes.{count_of};
ghost use Rattle.lock_modes.specs.Holds.{hold_has};
ghost use Rattle.lock_word.specs.Word.{step_of_want, step_of_down, down_of_mode};
ghost use Rattle.lock_word.specs.Rule.{WordShows};
ghost use Rattle.lock_word.specs.CallerView.{new_party, after_load, after_own_step};
ghost use Rattle.lock_word.specs.Seats.{GuardsDoNotGrow};
ghost use Rattle.lock_word.specs.Attempts.{Attempted, Acquired};

use crate::down::Down;
use crate::seated::attempt::Attempt;
use crate::seated::party::Party;
use crate::seated::plays::{Exchange, LoadWord, Take};
use crate::seated::rule::{SeatView, SplitOff, WordRule};
use crate::want::ExWant;
use atomic_table::Table;
use lock_modes::{Fault, Hold, Mode, is_limit};
use std::alloc::Global;
use std::hint::spin_loop;
use std::marker::Model;
use std::sync::Wait;
use std::thread;

/// How often a blocked call spins before it yields its thread.
const SPINS: u32 = 64;

/// A reader-writer lock in one atomic word: the readers, 2^32 for an upgradable hold, 2^33 for an exclusive one, and
/// 2^34 for the bar of a party that announced itself.
///
/// It protects no value. Its contracts follow each party's view across all threads.
#[derive(Drop)]
pub struct SeatedLock {
    table: Table<(), SeatView, u64, WordRule, Global>,
    readers: u64,
}

impl Model for SeatedLock {
    ghost use Rattle.std.specs.Prelude.{◌≡◌};
    ghost use Rattle.lock_modes.specs.Limits.{IsLimit};
    ghost use Rattle.lock_word.specs.Plays.{view_after_win, view_after_fail};
    ghost use Rattle.lock_word.specs.CallerView.{Lock};

    ghost Value = { Lock };

    ghost view = { λ l. record { id = l.table.shared.table_id; readers = l.readers } };

    ghost invariant = { λ l.
        (l.table.shared.table_id.words ≡ 1) × (l.table.shared.key ≡ l.readers) × IsLimit l.readers };
}

impl SeatedLock {
    /// Makes an unlocked lock for at most `readers` readers, and its first party, which holds nothing. No other call
    /// allocates.
    pub fn new(alloc: Global, readers: u64) -> Result<(SeatedLock, Party), Fault>
        ensures limits { (result ≡ Err Fault.BadLimits) ↔ (IsLimit readers → ⊥) }
        ensures in_range { OnOk result (IsLimit readers) }
        ensures fault { IfErr result IsMakerFault }
        ensures readers { IfOk result (λ made. made.0.readers ≡ readers) }
        ensures party { IfOk result (λ made. made.1 ≡ new_party made.0 0) }
    {
        if !is_limit(readers) {
            return Err(Fault::BadLimits);
        }
        let Ok((table, seat)) = Table::of_words(alloc, &[0], &readers) else {
            return Err(Fault::OutOfMemory);
        };
        let held = Hold::none();
        Ok((SeatedLock { table, readers }, Party { seat, held }))
    }

    /// Makes a second party, for another thread. The first keeps everything, its announcement too; the second holds
    /// nothing.
    pub fn split(&self, party: Party) -> (Party, Party)
        requires { party.lock ≡ self.now }
        ensures first { result.0 ≡ party }
        ensures second { result.1 ≡ new_party self.now result.1.number }
    {
        let Party { mut seat, held } = party;
        let other = self.table.shared.split_seat::<SplitOff>(&mut seat);
        let second = Party {
            seat: other,
            held: Hold::none(),
        };
        (Party { seat, held }, second)
    }

    /// Loads the word, which becomes the party's open load. The word encodes what all parties hold now, and the bar.
    pub fn load(&self, party: &mut Party) -> u64
        requires { party.old.lock ≡ self.now }
        ensures party { party.new ≡ after_load party.old result }
        ensures shows { WordShows self.now.readers result party.old.state.held }
        // Under the party's own bar no new guard comes.
        ensures guards { GuardsDoNotGrow party.old.state.held.announced party.old.last result }
    {
        self.table.shared.load::<LoadWord>(&mut party.seat, 0)
    }

    /// Loads the word, and then exchanges it at most once.
    pub fn attempt(&self, party: &mut Party, want: ExWant) -> Attempt
        requires lock { party.old.lock ≡ self.now }
        requires has { IsTrue (hold_has party.old.state.held (step_of_want want)) }
        ensures { Attempted want party.old result party.new }
    {
        let word = self.load(party);
        let Some(next) = want.exchanged(party.held.announced, self.readers, word) else {
            return Attempt::NotAdmitted(word);
        };
        let shared = &self.table.shared;
        if shared.compare_exchange::<Exchange>(&mut party.seat, 0, word, next) != word {
            return Attempt::Changed;
        }
        party.held = party.held.after(want.step());
        Attempt::Done
    }

    /// Attempts until it succeeds, blocking. Between attempts it spins, and after a while it yields the thread.
    pub fn acquire<R: Wait>(&self, rt: &R, party: &mut Party, want: ExWant)
        requires lock { party.old.lock ≡ self.now }
        requires has { IsTrue (hold_has party.old.state.held (step_of_want want)) }
        ensures { Acquired want party.old party.new }
    {
        let mut spins = 0;
        for _ in rt.forever() {
            if let Attempt::Done = self.attempt(party, want) {
                return;
            }
            if spins < SPINS {
                spins += 1;
                spin_loop();
            } else {
                thread::yield_now();
            }
        }
        unreachable!()
    }

    /// Releases one hold of the mode, by one subtraction.
    pub fn release(&self, party: &mut Party, mode: Mode)
        requires lock { party.old.lock ≡ self.now }
        requires holds { 0 < count_of party.old.state.held.bag mode }
        ensures { party.new ≡ after_own_step party.old (step_of_down (down_of_mode mode)) }
    {
        self.take(party, Down::of_mode(mode));
    }

    /// Downgrades an exclusive hold to a shared one, by one subtraction.
    pub fn downgrade(&self, party: &mut Party)
        requires lock { party.old.lock ≡ self.now }
        requires holds { 0 < party.old.state.held.bag.exclusive }
        ensures { party.new ≡ after_own_step party.old (step_of_down Down.ToShared) }
    {
        self.take(party, Down::ToShared);
    }

    /// Downgrades an exclusive hold to an upgradable one, by one subtraction.
    pub fn downgrade_to_upgradable(&self, party: &mut Party)
        requires lock { party.old.lock ≡ self.now }
        requires holds { 0 < party.old.state.held.bag.exclusive }
        ensures { party.new ≡ after_own_step party.old (step_of_down Down.ToUpgradable) }
    {
        self.take(party, Down::ToUpgradable);
    }

    /// Downgrades an upgradable hold to a shared one, by one subtraction.
    pub fn downgrade_upgradable(&self, party: &mut Party)
        requires lock { party.old.lock ≡ self.now }
        requires holds { 0 < party.old.state.held.bag.upgradable }
        ensures { party.new ≡ after_own_step party.old (step_of_down Down.UpgradableToShared) }
    {
        self.take(party, Down::UpgradableToShared);
    }

    /// Clears the party's bar, by one subtraction.
    pub fn withdraw(&self, party: &mut Party)
        requires lock { party.old.lock ≡ self.now }
        requires announced { party.old.state.held.announced ≡ true }
        ensures { party.new ≡ after_own_step party.old (step_of_down Down.Withdraw) }
    {
        self.take(party, Down::Withdraw);
    }

    fn take(&self, party: &mut Party, down: Down)
        requires lock { party.old.lock ≡ self.now }
        requires holds { IsTrue (hold_has party.old.state.held (step_of_down down)) }
        ensures { party.new ≡ after_own_step party.old (step_of_down down) }
    {
        let shared = &self.table.shared;
        shared.fetch_sub::<Take>(&mut party.seat, 0, down.amount());
        party.held = party.held.after(down.step());
    }
}
