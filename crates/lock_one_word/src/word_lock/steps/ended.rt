//! The end of a call.
ghost use Rattle.std.specs.Prelude.{◌≡◌};

use std::marker::Model;

/// How a call ended: what it was, its answer, and what its refusal rests on, if it was refused.
///
/// Only the steps of a call make one, at its end, and no clause can: what contracts see has a private field.
#[derive(Drop)]
pub(crate) struct Ended {
    pub(super) readers: u64,
    pub(super) upgrades: bool,
    pub(super) blocks: bool,
    pub(super) acquired: bool,
    pub(super) word: u64,
    pub(super) late: bool,
    pub(super) exchanges: u64,
}

impl Model for Ended {
    ghost use Rattle.lock_one_word.specs.Seals.{Ending, ending, ending_code};

    ghost Value = { Ending };

    ghost coded = { ending_code };

    ghost view = { λ e. ending e.readers e.upgrades e.blocks e.acquired e.word e.late e.exchanges };
}
