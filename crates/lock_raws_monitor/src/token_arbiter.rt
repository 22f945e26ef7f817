//! An arbiter over any observable raw state.
use crate::arbiter::{Arbiter, Unchanged};
use lock_modes::{Bag, Fault, Mode, ObservableState, RawState};
use std::alloc::Global;
use std::marker::Model;

/// The token of one acquisition of a `TokenArbiter`. Contracts see the token of the raw state.
///
/// It has no `Drop` and no `Clone`, and only a `TokenArbiter` opens it. So code that drops one does not compile.
pub struct ArbiterToken<T> {
    token: T,
}

impl<T> Model for ArbiterToken<T> {
    ghost Value = { T };

    ghost view = { λ t. t.token };
}

/// A raw state with as many places as readers, whose held tokens are compatible.
#[derive(Drop)]
pub struct TokenArbiter<S: ObservableState> {
    state: S,
}

impl<S: ObservableState> Model for TokenArbiter<S> {
    ghost use Rattle.lock_raws_monitor.specs.TokenArbiter.{TokensOut, IsLegalState};

    ghost Value = { TokensOut S.Token };

    ghost view = { λ arbiter. record {
      tokens_out = S.tokens arbiter.state;
      bar = S.bar arbiter.state;
      readers = S.reader_limit arbiter.state;
    } };

    ghost invariant = { λ arbiter.
        IsLegalState (S.tokens arbiter.state) (S.capacity arbiter.state) (S.reader_limit arbiter.state) };
}

impl<S: ObservableState> Arbiter for TokenArbiter<S> {
    ghost use Rattle.std.specs.Prelude.{⊤, true};

    type Token = ArbiterToken<S::Token>;

    ghost tokens_out = { λ arbiter. arbiter.tokens_out };

    ghost reader_limit = { λ arbiter. arbiter.readers };

    ghost bar = { λ arbiter. arbiter.bar };

    ghost has_bars = { true };

    ghost starts = { λ _. ⊤ };

    ghost records = { λ _ _ _. ⊤ };

    fn new(alloc: Global, readers: u64) -> Result<TokenArbiter<S>, Fault> {
        let state: S = RawState::new(alloc, readers, readers)?;
        Ok(TokenArbiter { state })
    }

    fn bag(&self) -> Bag {
        self.state.bag()
    }

    fn readers(&self) -> u64 {
        self.state.readers()
    }

    fn barred(&self) -> bool {
        self.state.barred()
    }

    fn announce(&mut self) -> bool {
        if self.state.barred() {
            return false;
        }
        self.state.set_bar(true);
        true
    }

    fn withdraw(&mut self) {
        self.state.set_bar(false);
    }

    fn admit_as(&mut self, mode: Mode, is_own: bool) -> Option<ArbiterToken<S::Token>> {
        if !self.state.room() {
            return None;
        }
        let token = self.state.admit_as(mode, is_own)?;
        Some(ArbiterToken { token })
    }

    fn give_back(&mut self, token: ArbiterToken<S::Token>, mode: Mode) -> bool {
        let ArbiterToken { token } = token;
        if !self.state.out(&token, mode) {
            return false;
        }
        self.state.give_back(token);
        true
    }

    fn change(
        &mut self,
        token: ArbiterToken<S::Token>,
        from: Mode,
        to: Mode,
    ) -> Result<ArbiterToken<S::Token>, Unchanged<ArbiterToken<S::Token>>> {
        let ArbiterToken { token } = token;
        if !self.state.out(&token, from) {
            let token = ArbiterToken { token };
            return Err(Unchanged {
                token,
                is_out: false,
            });
        }
        match self.state.change(token, to) {
            Ok(token) => Ok(ArbiterToken { token }),
            Err(token) => {
                let token = ArbiterToken { token };
                Err(Unchanged {
                    token,
                    is_out: true,
                })
            }
        }
    }
}
