//! The names of a plan.
use indexmap::IndexSet;
use plan_lines::{Counter, CounterKind, NameSet, Words};
use std::alloc::Global;

/// The names of a plan's locks, parties, counters and condition variables, in the plan's order.
#[derive(Drop)]
pub struct Names {
    pub(crate) words: Words,
    pub(crate) locks: NameSet,
    pub(crate) parties: NameSet,
    /// The flags, counters, semaphores and channels.
    pub(crate) counter_names: NameSet,
    pub(crate) counters: Vec<Counter>,
    pub(crate) condvars: NameSet,
}

impl Names {
    pub(crate) fn new(alloc: Global, words: Words) -> Names {
        Names {
            words,
            locks: IndexSet::new(alloc),
            parties: IndexSet::new(alloc),
            counter_names: IndexSet::new(alloc),
            counters: Vec::new(alloc),
            condvars: IndexSet::new(alloc),
        }
    }

    /// Returns the name of a lock, or an empty one past the last.
    pub fn lock(&self, lock: usize) -> &str {
        self.name_in(&self.locks, lock)
    }

    /// Returns the name of a condition variable, or an empty one past the last.
    pub fn condvar(&self, condvar: usize) -> &str {
        self.name_in(&self.condvars, condvar)
    }

    /// Returns the name of a party, or an empty one past the last.
    pub fn party(&self, party: usize) -> &str {
        self.name_in(&self.parties, party)
    }

    /// Returns how many parties there are.
    pub fn parties(&self) -> usize {
        self.parties.len()
    }

    /// Returns whether a row is a party. The rows after the parties are the counters.
    pub fn is_party(&self, row: usize) -> bool {
        row < self.parties()
    }

    /// Returns the name of a row.
    pub fn row(&self, row: usize) -> &str {
        match row.checked_sub(self.parties()) {
            None => self.party(row),
            Some(counter) => self.name_in(&self.counter_names, counter),
        }
    }

    /// Returns whether a row is a flag.
    pub fn is_flag(&self, row: usize) -> bool {
        self.counter_at(row).kind == CounterKind::Flag
    }

    /// Returns the value of a counter at this place of its program.
    pub fn value(&self, row: usize, place: usize) -> usize {
        self.counter_at(row).value(place)
    }

    /// Returns the word that declares a row.
    pub fn kind_word(&self, row: usize) -> &'static str {
        self.counter_at(row).kind.word()
    }

    /// Returns the word that moves a counter up, or down.
    pub fn move_word(&self, row: usize, is_up: bool) -> &'static str {
        self.counter_at(row).kind.move_word(is_up)
    }

    /// Returns the counter of a row. Any other row is as a flag.
    pub(crate) fn counter_at(&self, row: usize) -> Counter {
        match row.checked_sub(self.parties()) {
            Some(counter) => self.counter(counter),
            None => Counter::flag(false),
        }
    }

    /// Returns a counter, counted from 0.
    pub(crate) fn counter(&self, counter: usize) -> Counter {
        match self.counters.get(counter) {
            Some(counter) => *counter,
            None => Counter::flag(false),
        }
    }

    /// Returns the counter with this name.
    pub(crate) fn counter_of(&self, name: usize) -> Option<Counter> {
        let counter = self.counter_names.get_index_of(&name)?;
        self.counters.get(counter).copied()
    }

    /// Returns the row of the counter with this name.
    pub(crate) fn counter_row(&self, name: usize) -> usize {
        let counter = self.counter_names.get_index_of(&name).unwrap_or(0);
        self.parties().saturating_add(counter)
    }

    /// Returns whether a party is any number of parties.
    pub fn is_many(&self, party: usize) -> bool {
        self.party(party).ends_with('*')
    }

    /// Returns whether some party is any number of parties.
    pub fn has_many(&self) -> bool {
        (0..self.parties()).any(|party| self.is_many(party))
    }

    fn name_in(&self, names: &NameSet, number: usize) -> &str {
        match names.get_index(number) {
            Some(name) => self.words.text(*name),
            None => "",
        }
    }
}
