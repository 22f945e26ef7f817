//! A table of places, each free or taken in a mode.
ghost use Rattle.std.specs.Prelude.{◌≡◌, ◌+◌, ◌<◌, ◌≤◌, ◌^◌, ◌&&◌, not, length, ◌↔◌, IsTrue, IfOk, IfErr, IfSome, IfNone, OnErr, is_some, is_ok};
ghost use Rattle.lock_modes.specs.Modes.{tokens, admits, may_become};
ghost use Rattle.lock_modes.specs.Tokens.{bag_of_tokens, IsOut, IsOutAs, Adds, Removes, CanChange, Replaces};
ghost use Rattle.lock_states.specs.TableState.{tokens_of, KeepsLimits};

pub use crate::places::{Place, Places};
use lock_modes::{Bag, Fault, Mode, ObservableState, RawState, is_limit};
use std::alloc::Global;
use std::marker::Model;

/// A token of a table: its place.
#[derive(Drop)]
pub struct TableToken {
    place: usize,
}

/// A raw state with a list of places, free or taken in a mode, and a chain through the free ones. A token is its place.
/// It checks each token.
///
/// No call searches the places: each reads and writes at most three.
#[derive(Drop)]
pub struct TokenTable {
    places: Places,
    bag: Bag,
    free: Option<usize>,
    readers: u64,
    bar: bool,
}

impl Model for TokenTable {
    ghost use Rattle.lock_states.specs.Places.{modes_in};
    ghost use Rattle.lock_states.specs.TableState.{TableState, IsTable};

    ghost Value = { TableState };

    ghost view = { λ table. record {
      places = modes_in table.places.places;
      readers = table.readers;
      bar = table.bar;
      count = table.places.count;
    } };

    ghost invariant = { λ table. IsTable table.places.places table.bag table.free table.readers };
}

impl TokenTable {
    /// Returns how many tokens of each mode are held.
    fn tally(&self) -> Bag
        ensures bag { result ≡ bag_of_tokens (tokens_of self.now.places) }
        ensures number { tokens result ≡ length (tokens_of self.now.places) }
        ensures within { tokens result ≤ length self.now.places }
        ensures small { length self.now.places < 2 ^ 32 }
    {
        self.bag
    }

    fn capacity(&self) -> u64
        ensures { result ≡ length self.now.places }
    {
        self.places.len() as u64
    }
}

impl RawState for TokenTable {
    type Token = TableToken;

    ghost tokens = { λ table. tokens_of table.places };

    ghost capacity = { λ table. length table.places };

    ghost reader_limit = { λ table. table.readers };

    ghost bar = { λ table. table.bar };

    fn new(alloc: Global, places: u64, readers: u64) -> Result<TokenTable, Fault> {
        if !is_limit(places) || !is_limit(readers) {
            return Err(Fault::BadLimits);
        }
        Ok(TokenTable {
            places: Places::new(alloc, places as usize)?,
            bag: Bag::empty(),
            free: Some(places as usize - 1),
            readers,
            bar: false,
        })
    }

    fn admit_ignoring_bar(&mut self, mode: Mode) -> Option<TableToken>
        requires { length (tokens_of self.old.places) < length self.old.places }
        ensures admitted { is_some result ≡ admits self.old.readers (bag_of_tokens (tokens_of self.old.places)) mode }
        ensures added { IfSome result (λ token.
            Adds (tokens_of self.old.places) (tokens_of self.new.places) token mode) }
        ensures refused { IfNone result (self.new ≡ self.old) }
        ensures limits { KeepsLimits self.old self.new }
        ensures bar { self.new.bar ≡ self.old.bar }
        ensures count { self.new.count ≤ self.old.count + 3 }
    {
        if !self.tally().admits(self.readers, mode) {
            return None;
        }
        let Some(place) = self.free else {
            unreachable!()
        };
        let Place::Free(next) = self.places.read(place) else {
            unreachable!()
        };
        self.places.write(place, Place::Taken(mode));
        self.free = next;
        self.bag = self.bag.one_more(mode);
        Some(TableToken { place })
    }

    fn give_back(&mut self, token: TableToken)
        requires { IsOut (tokens_of self.old.places) token }
        ensures removed { Removes (tokens_of self.old.places) (tokens_of self.new.places) token }
        ensures limits { KeepsLimits self.old self.new }
        ensures bar { self.new.bar ≡ self.old.bar }
        ensures count { self.new.count ≤ self.old.count + 3 }
    {
        let Place::Taken(mode) = self.places.read(token.place) else {
            unreachable!()
        };
        self.places.write(token.place, Place::Free(self.free));
        self.free = Some(token.place);
        self.bag = self.bag.one_less(mode);
    }

    fn change(&mut self, token: TableToken, mode: Mode) -> Result<TableToken, TableToken>
        requires { CanChange (tokens_of self.old.places) token mode }
        ensures admitted { is_ok result ≡ may_become (bag_of_tokens (tokens_of self.old.places)) mode }
        ensures replaced { IfOk result (λ next.
            Replaces (tokens_of self.old.places) (tokens_of self.new.places) token next mode) }
        ensures token_returned { IfErr result (λ same. same ≡ token) }
        ensures refused { OnErr result (self.new ≡ self.old) }
        ensures limits { KeepsLimits self.old self.new }
        ensures bar { self.new.bar ≡ self.old.bar }
        ensures count { self.new.count ≤ self.old.count + 3 }
    {
        if !self.tally().may_become(mode) {
            return Err(token);
        }
        let Place::Taken(from) = self.places.read(token.place) else {
            unreachable!()
        };
        self.places.write(token.place, Place::Taken(mode));
        self.bag = self.bag.one_less(from).one_more(mode);
        Ok(token)
    }

    fn any(&self) -> bool {
        self.tally().tokens() != 0
    }

    fn exclusive(&self) -> bool {
        self.tally().exclusive != 0
    }

    fn set_bar(&mut self, barred: bool)
        ensures { self.new ≡ record self.old { bar = barred } }
    {
        self.bar = barred;
    }

    fn barred(&self) -> bool {
        self.bar
    }
}

impl ObservableState for TokenTable {
    fn bag(&self) -> Bag {
        self.tally()
    }

    fn readers(&self) -> u64 {
        self.readers
    }

    fn room(&self) -> bool {
        self.tally().tokens() < self.capacity()
    }

    fn out(&mut self, token: &TableToken, mode: Mode) -> bool
        ensures out { IsTrue result ↔ IsOutAs (tokens_of self.old.places) token.now mode }
        ensures places { self.new.places ≡ self.old.places }
        ensures limits { KeepsLimits self.old self.new }
        ensures bar { self.new.bar ≡ self.old.bar }
        ensures count { self.new.count ≤ self.old.count + 3 }
    {
        if token.place >= self.places.len() {
            return false;
        }
        match self.places.read(token.place) {
            Place::Taken(taken) => taken == mode,
            Place::Free(_) => false,
        }
    }
}
