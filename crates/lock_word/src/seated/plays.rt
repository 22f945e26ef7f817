//! The kinds of step on the word, and what each tells the party that makes it.
ghost use Rattle.lock_word.specs.Plays.{Loads, Exchanges, Takes};

use crate::seated::rule::SeatView;
use atomic_table::Play;

/// A load.
pub(crate) struct LoadWord;

impl Play<(), SeatView> for LoadWord {
    ghost then = { Loads };
}

/// An exchange that acquires, upgrades or sets the bar.
pub(crate) struct Exchange;

impl Play<(), SeatView> for Exchange {
    ghost then = { Exchanges };
}

/// A subtraction that releases, downgrades or clears the bar.
pub(crate) struct Take;

impl Play<(), SeatView> for Take {
    ghost then = { Takes };
}
