//! The steps of a `Monitor` on its arbiter, and their owed wake-ups.
ghost use Rattle.std.specs.Prelude.{◌≡◌, ◌<◌, ◌^◌, ◌&&◌, true, false, is_some, IfErr, IfOk, IfSome, IsTrue};
ghost use Rattle.lock_modes.specs.Bar.{passes_bar};
ghost use Rattle.lock_modes.specs.declared.mode.Mode.TheVariants.{Upgradable, Exclusive};
ghost use Rattle.lock_modes.specs.Modes.{admits, tokens, may_become, is_move};
ghost use Rattle.lock_modes.specs.Tokens.{bag_of_tokens, Adds, IsOutAs, Removes, Replaces};
ghost use Rattle.lock_raws_monitor.specs.ModeTokens.{mode_of, same_mode};
ghost use Rattle.lock_raws_monitor.specs.Waking.{wakes};

mod announcing;
mod mode_token;

use crate::arbiter::{Arbiter, upgraded};
use crate::monitor_wake::MonitorWake;
pub(crate) use announcing::admit_or_announce;
use lock_modes::{Bag, Mode};
use lock_word::Occupancy;
pub use mode_token::ModeToken;

/// Acquires a token of the mode, if the mode is admitted and no bar is set.
pub(crate) fn admit<A: Arbiter>(arbiter: &mut A, mode: Mode) -> Option<ModeToken<A::Token>>
    ensures admitted { is_some result ≡ (passes_bar (A.bar arbiter.old) false mode
        && admits (A.reader_limit arbiter.old) (bag_of_tokens (A.tokens_out arbiter.old)) mode) }
    ensures added { IfSome result (λ token. Adds (A.tokens_out arbiter.old) (A.tokens_out arbiter.new) token.token mode) }
    ensures mode { IfSome result (λ token. same_mode mode (mode_of token) ≡ true) }
{
    let token = arbiter.admit(mode)?;
    Some(ModeToken::new(token, mode))
}

/// Releases a token of the mode. Returns the owed wake-up.
pub(crate) fn give_back<A: Arbiter>(
    arbiter: &mut A,
    token: ModeToken<A::Token>,
    mode: Mode,
) -> MonitorWake
    requires { same_mode mode (mode_of token) ≡ true }
    ensures released { IsOutAs (A.tokens_out arbiter.old) token.token mode
        → Removes (A.tokens_out arbiter.old) (A.tokens_out arbiter.new) token.token }
    ensures wakes { result ≡ wakes (A.reader_limit arbiter.old) (A.bar arbiter.old)
        (bag_of_tokens (A.tokens_out arbiter.old)) (bag_of_tokens (A.tokens_out arbiter.new)) }
{
    let ModeToken { token, mode: _ } = token;
    let before = arbiter.bag();
    arbiter.give_back(token, mode);
    decide(arbiter, before)
}

/// Makes an upgradable token exclusive, or returns it unchanged if another token is held.
pub(crate) fn upgrade<A: Arbiter>(
    arbiter: &mut A,
    token: ModeToken<A::Token>,
) -> Result<ModeToken<A::Token>, ModeToken<A::Token>>
    ensures mode { IfOk result (λ next. same_mode Exclusive (mode_of next) ≡ true) }
    ensures back { IfErr result (λ back. back ≡ token) }
    ensures changed { IsOutAs (A.tokens_out arbiter.old) token.token Upgradable
        → IfOk result (λ next. Replaces (A.tokens_out arbiter.old) (A.tokens_out arbiter.new) token.token next.token Exclusive) }
{
    let ModeToken { token, mode } = token;
    match upgraded(arbiter.change(token, Mode::Upgradable, Mode::Exclusive)) {
        Ok(next) => Ok(ModeToken::new(next, Mode::Exclusive)),
        Err(token) => Err(ModeToken { token, mode }),
    }
}

/// Downgrades a token. A token that is not held changes nothing in the arbiter. Also returns the owed wake-up.
pub(crate) fn downgrade<A: Arbiter>(
    arbiter: &mut A,
    token: ModeToken<A::Token>,
    from: Mode,
    to: Mode,
) -> (ModeToken<A::Token>, MonitorWake)
    requires down { IsTrue (is_move from to) }
    requires own { same_mode from (mode_of token) ≡ true }
    ensures mode { same_mode to (mode_of result.0) ≡ true }
    ensures changed { IsOutAs (A.tokens_out arbiter.old) token.token from → IsTrue (may_become (bag_of_tokens (A.tokens_out arbiter.old)) to)
        → Replaces (A.tokens_out arbiter.old) (A.tokens_out arbiter.new) token.token result.0.token to }
    ensures wakes { result.1 ≡ wakes (A.reader_limit arbiter.old) (A.bar arbiter.old)
        (bag_of_tokens (A.tokens_out arbiter.old)) (bag_of_tokens (A.tokens_out arbiter.new)) }
{
    let ModeToken { token, mode: _ } = token;
    let before = arbiter.bag();
    let token = match arbiter.change(token, from, to) {
        Ok(next) => next,
        Err(same) => same.token,
    };
    (ModeToken::new(token, to), decide(arbiter, before))
}

/// Returns the owed wake-up of a step, from the bag before it.
fn decide<A: Arbiter>(arbiter: &A, before: Bag) -> MonitorWake
    requires { tokens before < 2 ^ 64 }
    ensures { result ≡ wakes (A.reader_limit arbiter.now) (A.bar arbiter.now) before
        (bag_of_tokens (A.tokens_out arbiter.now)) }
{
    let barred = arbiter.barred();
    let before = Occupancy {
        bag: before,
        barred,
    };
    let after = Occupancy {
        bag: arbiter.bag(),
        barred,
    };
    MonitorWake::decide(arbiter.readers(), before, after)
}
