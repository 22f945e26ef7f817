//! A party of a seated lock.
ghost use Rattle.std.specs.Prelude.{◌≡◌};
ghost use Rattle.lock_modes.specs.Modes.{count_of};

use crate::seated::rule::SeatView;
use atomic_table::Seat;
use lock_modes::{Hold, Mode};
use std::marker::Model;

/// A party of a seated lock: a seat at the word, and what the party holds. Contracts see it as `CallerView`: its lock,
/// seat number, state, last load and count of loads.
///
/// A party that is dropped never releases what it holds, and its bar stays set.
#[derive(Drop)]
pub struct Party {
    pub(crate) seat: Seat<(), SeatView>,
    pub(crate) held: Hold,
}

impl Model for Party {
    ghost use Rattle.std.specs.Prelude.{◌≡◌, []};
    ghost use Rattle.lock_word.specs.CallerView.{CallerView};

    ghost Value = { CallerView };

    ghost view = { λ p.
        record {
          lock = record { id = p.seat.table_id; readers = p.seat.me.0.readers };
          number = p.seat.id;
          state = p.seat.me.0.state;
          last = p.seat.me.0.last;
          loads = p.seat.me.0.loads;
        } };

    ghost invariant = { λ p. (p.seat.me.1 ≡ []) × (p.seat.me.0.state.held ≡ p.held) };
}

impl Party {
    /// Returns how many holds of the mode the party has.
    pub fn holds(&self, mode: Mode) -> u64
        ensures { result ≡ count_of self.now.state.held.bag mode }
    {
        self.held.bag.count(mode)
    }

    /// Returns whether the party has announced itself.
    pub fn announced(&self) -> bool
        ensures { result ≡ self.now.state.held.announced }
    {
        self.held.announced
    }
}
