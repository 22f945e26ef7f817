//! A raw state that counts.
use lock_modes::{Fault, Mode, RawState};
use std::alloc::Global;

/// A raw state that counts the released tokens.
#[derive(Drop)]
pub struct CountedState<R: RawState> {
    raw: R,
    given_back: u64,
}

impl<R: RawState> CountedState<R> {
    pub fn given_back(&self) -> u64 {
        self.given_back
    }
}

impl<R: RawState> RawState for CountedState<R> {
    type Token = R::Token;

    ghost tokens = { λ counted. R.tokens counted.raw };

    ghost capacity = { λ counted. R.capacity counted.raw };

    ghost reader_limit = { λ counted. R.reader_limit counted.raw };

    ghost bar = { λ counted. R.bar counted.raw };

    fn new(alloc: Global, places: u64, readers: u64) -> Result<CountedState<R>, Fault> {
        let raw = R::new(alloc, places, readers)?;
        Ok(CountedState { raw, given_back: 0 })
    }

    fn admit_ignoring_bar(&mut self, mode: Mode) -> Option<R::Token> {
        self.raw.admit_ignoring_bar(mode)
    }

    fn give_back(&mut self, token: R::Token) {
        self.raw.give_back(token);
        self.given_back = self.given_back.saturating_add(1);
    }

    fn change(&mut self, token: R::Token, mode: Mode) -> Result<R::Token, R::Token> {
        self.raw.change(token, mode)
    }

    fn any(&self) -> bool {
        self.raw.any()
    }

    fn exclusive(&self) -> bool {
        self.raw.exclusive()
    }

    fn set_bar(&mut self, barred: bool) {
        self.raw.set_bar(barred);
    }

    fn barred(&self) -> bool {
        self.raw.barred()
    }
}
