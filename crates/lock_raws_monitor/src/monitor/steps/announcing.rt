//! A waiting writer that keeps other threads out.
ghost use Rattle.std.specs.Prelude.{◌≡◌, ◌&&◌, ◌||◌, not, true, false, is_some, IfSome, IfNone};
ghost use Rattle.lock_modes.specs.Bar.{passes_bar};
ghost use Rattle.lock_modes.specs.Modes.{admits};
ghost use Rattle.lock_modes.specs.declared.mode.Mode.TheVariants.{Exclusive};
ghost use Rattle.lock_modes.specs.Tokens.{bag_of_tokens};
ghost use Rattle.lock_raws_monitor.specs.ModeTokens.{mode_of, same_mode};

use crate::arbiter::Arbiter;
use crate::monitor::steps::mode_token::ModeToken;
use lock_modes::Mode;

/// Acquires an exclusive token, if it is admitted to a writer that has announced itself, or has not. If not, the writer
/// announces itself, unless the bar is set. Acquiring clears its bar.
pub(crate) fn admit_or_announce<A: Arbiter>(
    arbiter: &mut A,
    announced: &mut bool,
) -> Option<ModeToken<A::Token>>
    ensures mode { IfSome result (λ token. same_mode Exclusive (mode_of token) ≡ true) }
    ensures admitted { is_some result ≡ (passes_bar (A.bar arbiter.old) announced.old Exclusive
        && admits (A.reader_limit arbiter.old) (bag_of_tokens (A.tokens_out arbiter.old)) Exclusive) }
    ensures bar_ends { IfSome result (λ _. A.bar arbiter.new ≡ false) }
    ensures bar_stands { IfNone result
        (A.bar arbiter.new ≡ (A.has_bars || A.bar arbiter.old)) }
    ensures same_caller { IfSome result (λ _. announced.new ≡ announced.old) }
    ensures announces { IfNone result
        (announced.new ≡ (announced.old || (A.has_bars && not (A.bar arbiter.old)))) }
{
    if let Some(token) = arbiter.admit_as(Mode::Exclusive, *announced) {
        if *announced {
            arbiter.withdraw();
        }
        return Some(ModeToken::new(token, Mode::Exclusive));
    }
    if arbiter.announce() {
        *announced = true;
    }
    None
}
