//! The kinds of step on the word, and what the party that makes one learns.
ghost use Rattle.lock_one_word.specs.Plays.{Exchanges, Loads, Subtracts};

use crate::rule::OneView;
use atomic_table::Play;

/// A load.
pub(crate) struct LoadWord;

impl Play<(), OneView> for LoadWord {
    ghost then = { Loads };
}

/// An exchange.
pub(crate) struct ExchangeWord;

impl Play<(), OneView> for ExchangeWord {
    ghost then = { Exchanges };
}

/// A subtraction that releases or downgrades.
pub(crate) struct SubtractFromWord;

impl Play<(), OneView> for SubtractFromWord {
    ghost then = { Subtracts };
}
