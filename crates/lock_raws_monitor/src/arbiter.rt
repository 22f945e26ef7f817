//! The arbiter of a raw lock: it decides which tokens are held.
ghost use Rattle.std.specs.Prelude.{◌≡◌, ℕ, Bool, false, not, ◌&&◌, ◌||◌, List, [], ◌↔◌, IsTrue, Option, if◌then◌else◌, is_some, is_ok, ◌<◌, ◌^◌, IfOk, IfErr, IfSome, IfNone, OnErr, MatchResult};
ghost use Rattle.std.specs.Bool.{OnTrue, OnFalse};
ghost use Rattle.lock_modes.specs.declared.mode.Mode.{Mode};
ghost use Rattle.lock_modes.specs.declared.mode_step.ModeStep.{ModeStep};
ghost use Rattle.lock_modes.specs.Bar.{passes_bar};
ghost use Rattle.lock_modes.specs.Modes.{tokens, admits, may_become, is_move, AreCompatible};
ghost use Rattle.lock_modes.specs.Tokens.{bag_of_tokens, IsOutAs, Adds, Removes, Replaces};
ghost use Rattle.lock_modes.specs.Limits.{IsLimit, IsMakerFault};

use lock_modes::{Bag, Fault, Mode, ModeStep};
use std::alloc::Global;

/// A token whose mode was not changed.
#[derive(Drop)]
pub struct Unchanged<T> {
    pub token: T,
    /// Whether the token is held in its mode. Then another token refused the change.
    pub is_out: bool,
}

/// Returns the result of an upgrade. A token that is not held counts as upgraded.
pub fn upgraded<T>(changed: Result<T, Unchanged<T>>) -> Result<T, T>
    ensures answer { MatchResult changed (λ next. result ≡ Ok next)
        (λ same. result ≡ if same.is_out then Err same.token else Ok same.token) }
    ensures back { (token : T) → IfErr changed (λ same. same.token ≡ token) → IfErr result (λ back. back ≡ token) }
{
    match changed {
        Ok(next) => Ok(next),
        Err(
            Unchanged {
                token,
                is_out: true,
            },
        ) => Err(token),
        Err(
            Unchanged {
                token,
                is_out: false,
            },
        ) => Ok(token),
    }
}

/// The held tokens of a raw lock, which are always compatible, and the bar.
///
/// A call with a token that is not held in its mode is ignored. While the bar is set, no new token is admitted.
pub trait Arbiter: Sized + Drop {
    type Token;

    /// The held tokens, each with its mode.
    ghost tokens_out: { Self → List (Self.Token × Mode) };

    /// How many tokens may be shared or upgradable.
    ghost reader_limit: { Self → ℕ };

    /// Whether the bar is set.
    ghost bar: { Self → Bool };

    /// Whether this arbiter has a bar at all.
    ghost has_bars: { Bool };

    /// What a new arbiter records.
    ghost starts: { Self → Type 0 };

    /// What a call records, between the arbiters before and after it, if it made this step or none.
    ghost records: { Self → Self → Option ModeStep → Type 0 };

    /// Makes an arbiter without tokens and bar. `BadLimits` if `readers` is out of range, else `OutOfMemory`.
    fn new(alloc: Global, readers: u64) -> Result<Self, Fault>
        ensures limits { (result ≡ Err Fault.BadLimits) ↔ (IsLimit readers → ⊥) }
        ensures in_range { IfOk result (λ _. IsLimit readers) }
        ensures fault { IfErr result IsMakerFault }
        ensures empty { IfOk result (λ made. tokens_out made ≡ []) }
        ensures unbarred { IfOk result (λ made. bar made ≡ false) }
        ensures limit_kept { IfOk result (λ made. reader_limit made ≡ readers) }
        ensures kept { IfOk result starts };

    /// Returns how many tokens of each mode are held.
    fn bag(&self) -> Bag
        ensures bag { result ≡ bag_of_tokens (tokens_out self.now) }
        ensures legal { AreCompatible (reader_limit self.now) result }
        ensures small { tokens result < 2 ^ 32 };

    /// Returns how many tokens may be shared or upgradable.
    fn readers(&self) -> u64
        ensures { result ≡ reader_limit self.now };

    /// Returns whether the bar is set.
    fn barred(&self) -> bool
        ensures { result ≡ bar self.now };

    /// Sets the bar if the arbiter has one and it is not set. Returns whether it did.
    fn announce(&mut self) -> bool
        ensures announced { result ≡ (has_bars && not (bar self.old)) }
        ensures bar { bar self.new ≡ (bar self.old || result) }
        ensures tokens_kept { tokens_out self.new ≡ tokens_out self.old }
        ensures limit_kept { reader_limit self.new ≡ reader_limit self.old }
        ensures recorded { records self.old self.new None };

    /// Clears the bar.
    fn withdraw(&mut self)
        ensures bar { bar self.new ≡ false }
        ensures tokens_kept { tokens_out self.new ≡ tokens_out self.old }
        ensures limit_kept { reader_limit self.new ≡ reader_limit self.old }
        ensures recorded { records self.old self.new None };

    /// Acquires a token of the mode, if the mode is admitted and the bar lets the party pass. `is_own` says whether the
    /// party set the bar.
    fn admit_as(&mut self, mode: Mode, is_own: bool) -> Option<Self::Token>
        ensures admitted { is_some result
            ≡ (passes_bar (bar self.old) is_own mode && admits (reader_limit self.old) (bag_of_tokens (tokens_out self.old)) mode) }
        ensures added { IfSome result (λ token. Adds (tokens_out self.old) (tokens_out self.new) token mode) }
        ensures refused { IfNone result (tokens_out self.new ≡ tokens_out self.old) }
        ensures bar_kept { bar self.new ≡ bar self.old }
        ensures limit_kept { reader_limit self.new ≡ reader_limit self.old }
        ensures recorded { records self.old self.new (if is_some result then Some (ModeStep.Acquire mode) else None) };

    /// Acquires a token of the mode, if the mode is admitted and no bar is set.
    fn admit(&mut self, mode: Mode) -> Option<Self::Token>
        ensures admitted { is_some result
            ≡ (passes_bar (bar self.old) false mode && admits (reader_limit self.old) (bag_of_tokens (tokens_out self.old)) mode) }
        ensures added { IfSome result (λ token. Adds (tokens_out self.old) (tokens_out self.new) token mode) }
        ensures refused { IfNone result (tokens_out self.new ≡ tokens_out self.old) }
        ensures bar_kept { bar self.new ≡ bar self.old }
        ensures limit_kept { reader_limit self.new ≡ reader_limit self.old }
        ensures recorded { records self.old self.new (if is_some result then Some (ModeStep.Acquire mode) else None) }
    {
        self.admit_as(mode, false)
    }

    /// Releases a token. Returns whether it was held in the mode.
    fn give_back(&mut self, token: Self::Token, mode: Mode) -> bool
        ensures was_out { IsTrue result ↔ IsOutAs (tokens_out self.old) token mode }
        ensures removed { OnTrue result (Removes (tokens_out self.old) (tokens_out self.new) token) }
        ensures ignored { OnFalse result (tokens_out self.new ≡ tokens_out self.old) }
        ensures bar_kept { bar self.new ≡ bar self.old }
        ensures limit_kept { reader_limit self.new ≡ reader_limit self.old }
        ensures recorded { records self.old self.new (if result then Some (ModeStep.Release mode) else None) };

    /// Exchanges a token for one of another mode, by one of the four moves. It returns the token unchanged if the token
    /// is not held in its mode, and if an upgrade meets another token.
    fn change(
        &mut self,
        token: Self::Token,
        from: Mode,
        to: Mode,
    ) -> Result<Self::Token, Unchanged<Self::Token>>
        requires { IsTrue (is_move from to) }
        ensures was_out { IfOk result (λ _. IsOutAs (tokens_out self.old) token from) }
        ensures admitted { IsOutAs (tokens_out self.old) token from
            → is_ok result ≡ may_become (bag_of_tokens (tokens_out self.old)) to }
        ensures replaced { IfOk result (λ next. Replaces (tokens_out self.old) (tokens_out self.new) token next to) }
        ensures token_returned { IfErr result (λ same. same.token ≡ token) }
        ensures is_out { IfErr result (λ same. IsTrue same.is_out ↔ IsOutAs (tokens_out self.old) token from) }
        ensures refused { OnErr result (tokens_out self.new ≡ tokens_out self.old) }
        ensures bar_kept { bar self.new ≡ bar self.old }
        ensures limit_kept { reader_limit self.new ≡ reader_limit self.old }
        ensures recorded { records self.old self.new (if is_ok result then Some (ModeStep.Change from to) else None) };
}
