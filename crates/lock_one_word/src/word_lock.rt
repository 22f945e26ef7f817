//! The lock.
ghost use Rattle.std.specs.Prelude.{◌≡◌, ◌↔◌, IfOk, IfErr};
ghost use Rattle.lock_modes.specs.Limits.{IsLimit, IsMakerFault};
ghost use Rattle.lock_one_word.specs.Calls.{SawTokens, SawExclusive, SawSleepers};

mod steps;

use crate::rule::{OneRule, OneView};
use atomic_table::Table;
use lock_modes::{Fault, is_limit};
use lock_one::{SLEEPERS, TURN};
use lock_word::{has_exclusive, has_tokens};
use std::alloc::Global;
use std::marker::Model;
pub use steps::WordToken;
pub(crate) use steps::{CallSeat, Ended, Looked, Pending, Unacquired, Unreleased};

/// A reader-writer lock in one word, on which its waiters sleep.
///
/// A lock for one reader is a mutex in all modes: a release wakes one sleeper. Other locks wake all sleepers that a release
/// unblocks. After the step that releases, a release accesses the word no more.
#[derive(Drop)]
pub struct WordLock {
    table: Table<(), OneView, u64, OneRule, Global>,
    pub(crate) readers: u64,
}

impl Model for WordLock {
    ghost use Rattle.std.specs.Prelude.{◌≡◌};
    ghost use Rattle.lock_modes.specs.Limits.{IsLimit};
    ghost use Rattle.lock_one_word.specs.Calls.{WordLockView};

    ghost Value = { WordLockView };

    ghost view = { λ l. record { id = l.table.shared.table_id; readers = l.readers } };

    ghost invariant = { λ l.
        (l.table.shared.table_id.words ≡ 1) × (l.table.shared.key ≡ l.readers) × IsLimit l.readers };
}

impl WordLock {
    /// Makes an unlocked lock for at most `readers` readers. No other call allocates.
    pub fn new(alloc: Global, readers: u64) -> Result<WordLock, Fault>
        ensures limits { (result ≡ Err Fault.BadLimits) ↔ (IsLimit readers → ⊥) }
        ensures fault { IfErr result IsMakerFault }
        ensures readers { IfOk result (λ made. (made.readers ≡ readers) × IsLimit readers) }
    {
        if !is_limit(readers) {
            return Err(Fault::BadLimits);
        }
        let Ok((table, _)) = Table::of_words(alloc, &[0], &readers) else {
            return Err(Fault::OutOfMemory);
        };
        Ok(WordLock { table, readers })
    }

    /// Returns whether a token is held. The answer may be stale at once.
    pub fn is_locked(&self) -> bool
        ensures { SawTokens result }
    {
        has_tokens(self.peek().word() % TURN)
    }

    /// Returns whether an exclusive token is held. The answer may be stale at once.
    pub fn is_locked_exclusive(&self) -> bool
        ensures { SawExclusive result }
    {
        has_exclusive(self.peek().word() % TURN)
    }

    /// Returns whether a waiter may sleep. The answer may be stale at once.
    pub fn may_have_sleepers(&self) -> bool
        ensures { SawSleepers result }
    {
        self.peek().word() >= SLEEPERS
    }
}
