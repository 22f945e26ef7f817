//! A word that a load found.
ghost use Rattle.std.specs.Prelude.{◌≡◌};
ghost use Rattle.lock_one_word.specs.Seals.{seen};

use std::marker::Model;

/// A word that a load found, in no call.
///
/// Only `WordLock::peek` makes one, and no clause can: what contracts see has a private field.
#[derive(Drop)]
pub(crate) struct SeenWord {
    word: u64,
}

impl Model for SeenWord {
    ghost use Rattle.lock_one_word.specs.Seals.{Seen, seen, seen_code};

    ghost Value = { Seen };

    ghost coded = { seen_code };

    ghost view = { λ s. seen s.word };
}

impl SeenWord {
    pub(super) fn new(word: u64) -> SeenWord
        ensures { result ≡ seen word }
    {
        SeenWord { word }
    }

    pub(crate) fn word(&self) -> u64
        ensures { result ≡ self.now.word }
    {
        self.word
    }
}
