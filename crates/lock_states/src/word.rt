//! A raw state in one number.
ghost use Rattle.std.specs.Prelude.{◌≡◌, ◌↔◌, ◌<◌, ◌&&◌, false, not, IfOk, IfErr, IsOk, IsTrue, if◌then◌else◌};
ghost use Rattle.lock_modes.specs.Limits.{IsLimit};
ghost use Rattle.lock_modes.specs.Modes.{empty_bag, count_of, one_more, one_less, admits, may_become, is_move};

use lock_modes::{Fault, Mode, RawState, is_limit};
use lock_word::{Down, ExWant, has_bar, has_exclusive, has_tokens, with_bar};
use std::alloc::Global;
use std::marker::Model;

/// A token of a packed word: its mode alone.
#[derive(Drop)]
pub struct PackedToken {
    mode: Mode,
}

/// A raw state in one number, the packed word of the held tokens and the bar. A token is its mode. It allocates
/// nothing.
#[derive(Drop)]
pub struct PackedWord {
    word: u64,
    places: u64,
    readers: u64,
}

impl Model for PackedWord {
    ghost use Rattle.lock_modes.specs.Limits.{IsLimit};
    ghost use Rattle.lock_word.specs.BarredBags.{is_barred};
    ghost use Rattle.lock_word.specs.Word.{bag_of_word, barred_bag_of_word, IsPacked};
    ghost use Rattle.lock_states.specs.Packed.{Packed};

    ghost Value = { Packed };

    ghost view = { λ w. record {
      bag = bag_of_word w.word;
      places = w.places;
      readers = w.readers;
      bar = is_barred (barred_bag_of_word w.word);
    } };

    ghost invariant = { λ w. IsPacked w.readers w.word × IsLimit w.readers };
}

impl PackedWord {
    /// Acquires the mode, if it is admitted. The bar is ignored, and stays as it is.
    fn acquire(&mut self, mode: Mode) -> bool
        ensures admitted { result ≡ admits self.old.readers self.old.bag mode }
        ensures after { self.new ≡ if result then record self.old { bag = one_more self.old.bag mode } else self.old }
    {
        let Some(next) = ExWant::of_mode(mode).exchanged(
            false,
            self.readers,
            with_bar(self.word, false),
        ) else {
            return false;
        };
        self.word = with_bar(next, has_bar(self.word));
        true
    }

    /// Releases the mode.
    fn release(&mut self, mode: Mode)
        requires { 0 < count_of self.old.bag mode }
        ensures { self.new ≡ record self.old { bag = one_less self.old.bag mode } }
    {
        self.word -= Down::of_mode(mode).amount();
    }

    /// Changes a held mode to another by a move. An upgrade next to another token is refused.
    fn move_to(&mut self, from: Mode, to: Mode) -> bool
        requires out { 0 < count_of self.old.bag from }
        requires moves { IsTrue (is_move from to) }
        ensures allowed { result ≡ may_become self.old.bag to }
        ensures after { self.new
            ≡ if result then record self.old { bag = one_more (one_less self.old.bag from) to } else self.old }
    {
        match (from, to) {
            (Mode::Upgradable, Mode::Exclusive) => {
                let Some(next) = ExWant::Upgrade.exchanged(false, self.readers, self.word) else {
                    return false;
                };
                self.word = next;
            }
            (Mode::Upgradable, _) => self.word -= Down::UpgradableToShared.amount(),
            (_, Mode::Upgradable) => self.word -= Down::ToUpgradable.amount(),
            _ => self.word -= Down::ToShared.amount(),
        }
        true
    }
}

impl RawState for PackedWord {
    ghost use Rattle.lock_states.specs.Packed.{tokens_in};

    type Token = PackedToken;

    ghost tokens = { λ w. tokens_in w.bag };

    ghost capacity = { λ w. w.places };

    ghost reader_limit = { λ w. w.readers };

    ghost bar = { λ w. w.bar };

    /// It allocates nothing, so it never fails for want of memory.
    fn new(_alloc: Global, places: u64, readers: u64) -> Result<PackedWord, Fault>
        ensures range { IsOk result ↔ (IsLimit places × IsLimit readers) }
        ensures fault { IfErr result (λ fault. fault ≡ Fault.BadLimits) }
        ensures made { IfOk result (λ made.
            made ≡ record { bag = empty_bag; places = places; readers = readers; bar = false }) }
    {
        if !is_limit(places) || !is_limit(readers) {
            return Err(Fault::BadLimits);
        }
        Ok(PackedWord {
            word: 0,
            places,
            readers,
        })
    }

    #[tactic(auto, using(crate::proofs::PackedTokens::bag_of_tokens_in))]
    fn admit_ignoring_bar(&mut self, mode: Mode) -> Option<PackedToken> {
        if !self.acquire(mode) {
            return None;
        }
        Some(PackedToken { mode })
    }

    #[tactic(auto, using(crate::proofs::PackedTokens::out_is_held, crate::proofs::PackedTokens::given_back))]
    fn give_back(&mut self, token: PackedToken) {
        self.release(token.mode);
    }

    #[tactic(auto, using(crate::proofs::PackedTokens::bag_of_tokens_in, crate::proofs::PackedTokens::replaced))]
    fn change(&mut self, token: PackedToken, mode: Mode) -> Result<PackedToken, PackedToken> {
        if !self.move_to(token.mode, mode) {
            return Err(token);
        }
        Ok(PackedToken { mode })
    }

    fn any(&self) -> bool {
        has_tokens(self.word)
    }

    #[tactic(auto, using(crate::proofs::PackedTokens::bag_of_tokens_in))]
    fn exclusive(&self) -> bool {
        has_exclusive(self.word)
    }

    fn set_bar(&mut self, barred: bool) {
        self.word = with_bar(self.word, barred);
    }

    fn barred(&self) -> bool {
        has_bar(self.word)
    }
}
