//! Raw states: the tokens of a lock, for one thread.
ghost use Rattle.std.specs.Prelude.{◌≡◌, ℕ, Bool, false, ◌&&◌, ◌<◌, List, [], length, ◌↔◌, ◌==◌, not, is_some, is_ok, IfOk, IfErr, IfSome, IfNone, OnErr};
ghost use Rattle.lock_modes.specs.declared.mode.Mode.{Mode};
ghost use Rattle.lock_modes.specs.Bar.{passes_bar};
ghost use Rattle.lock_modes.specs.Modes.{admits, may_become};
ghost use Rattle.lock_modes.specs.Tokens.{bag_of_tokens, IsOut, Adds, Removes, CanChange, Replaces};
ghost use Rattle.lock_modes.specs.Limits.{IsLimit, IsMakerFault};

use crate::{Fault, Mode};
use std::alloc::Global;

/// The sequential counterpart of a raw lock: a bag of held tokens, with two limits. One limit is of all tokens, the
/// other of those that read. While a bar is set, no new token is admitted.
///
/// A token is held if the bag has it, with a mode. Two tokens of one mode may be equal, for instance where a token is
/// only its mode. Then either releases one of them.
pub trait RawState: Sized + Drop {
    type Token: Drop;

    /// The held tokens, each with its mode. Their order means nothing.
    ghost tokens: { Self → List (Self.Token × Mode) };

    /// How many tokens may be held.
    ghost capacity: { Self → ℕ };

    /// How many tokens may be shared or upgradable.
    ghost reader_limit: { Self → ℕ };

    /// Whether the bar is set.
    ghost bar: { Self → Bool };

    /// Makes a state without tokens and bar. It allocates all the memory that the state ever needs.
    fn new(alloc: Global, places: u64, readers: u64) -> Result<Self, Fault>
        ensures limits { (result ≡ Err Fault.BadLimits) ↔ ((IsLimit places × IsLimit readers) → ⊥) }
        ensures in_range { IfOk result (λ _. IsLimit places × IsLimit readers) }
        ensures fault { IfErr result IsMakerFault }
        ensures empty { IfOk result (λ state. tokens state ≡ []) }
        ensures unbarred { IfOk result (λ state. bar state ≡ false) }
        ensures capacity_kept { IfOk result (λ state. capacity state ≡ places) }
        ensures limit_kept { IfOk result (λ state. reader_limit state ≡ readers) };

    /// Acquires a token of the mode, if the mode is admitted. The bar is ignored: the caller has decided whether it lets
    /// the party pass.
    fn admit_ignoring_bar(&mut self, mode: Mode) -> Option<Self::Token>
        requires { length (tokens self.old) < capacity self.old }
        ensures admitted { is_some result ≡ admits (reader_limit self.old) (bag_of_tokens (tokens self.old)) mode }
        ensures added { IfSome result (λ token. Adds (tokens self.old) (tokens self.new) token mode) }
        ensures refused { IfNone result (tokens self.new ≡ tokens self.old) }
        ensures bar_kept { bar self.new ≡ bar self.old }
        ensures capacity_kept { capacity self.new ≡ capacity self.old }
        ensures limit_kept { reader_limit self.new ≡ reader_limit self.old };

    /// Acquires a token of the mode, if the mode is admitted and the bar lets the party pass. `is_own` says whether the
    /// party set the bar.
    fn admit_as(&mut self, mode: Mode, is_own: bool) -> Option<Self::Token>
        requires { length (tokens self.old) < capacity self.old }
        ensures admitted { is_some result
            ≡ (passes_bar (bar self.old) is_own mode && admits (reader_limit self.old) (bag_of_tokens (tokens self.old)) mode) }
        ensures added { IfSome result (λ token. Adds (tokens self.old) (tokens self.new) token mode) }
        ensures refused { IfNone result (tokens self.new ≡ tokens self.old) }
        ensures bar_kept { bar self.new ≡ bar self.old }
        ensures capacity_kept { capacity self.new ≡ capacity self.old }
        ensures limit_kept { reader_limit self.new ≡ reader_limit self.old }
    {
        if !mode.passes_bar(self.barred(), is_own) {
            return None;
        }
        self.admit_ignoring_bar(mode)
    }

    /// Acquires a token of the mode, if the mode is admitted and no bar is set.
    fn admit(&mut self, mode: Mode) -> Option<Self::Token>
        requires { length (tokens self.old) < capacity self.old }
        ensures admitted { is_some result
            ≡ (passes_bar (bar self.old) false mode && admits (reader_limit self.old) (bag_of_tokens (tokens self.old)) mode) }
        ensures added { IfSome result (λ token. Adds (tokens self.old) (tokens self.new) token mode) }
        ensures refused { IfNone result (tokens self.new ≡ tokens self.old) }
        ensures bar_kept { bar self.new ≡ bar self.old }
        ensures capacity_kept { capacity self.new ≡ capacity self.old }
        ensures limit_kept { reader_limit self.new ≡ reader_limit self.old }
    {
        self.admit_as(mode, false)
    }

    /// Releases a token.
    fn give_back(&mut self, token: Self::Token)
        requires { IsOut (tokens self.old) token }
        ensures removed { Removes (tokens self.old) (tokens self.new) token }
        ensures bar_kept { bar self.new ≡ bar self.old }
        ensures capacity_kept { capacity self.new ≡ capacity self.old }
        ensures limit_kept { reader_limit self.new ≡ reader_limit self.old };

    /// Exchanges a token for one of another mode, by one of the four moves. An upgrade next to another token returns
    /// the token unchanged.
    fn change(&mut self, token: Self::Token, mode: Mode) -> Result<Self::Token, Self::Token>
        requires { CanChange (tokens self.old) token mode }
        ensures admitted { is_ok result ≡ may_become (bag_of_tokens (tokens self.old)) mode }
        ensures replaced { IfOk result (λ next. Replaces (tokens self.old) (tokens self.new) token next mode) }
        ensures token_returned { IfErr result (λ same. same ≡ token) }
        ensures refused { OnErr result (tokens self.new ≡ tokens self.old) }
        ensures bar_kept { bar self.new ≡ bar self.old }
        ensures capacity_kept { capacity self.new ≡ capacity self.old }
        ensures limit_kept { reader_limit self.new ≡ reader_limit self.old };

    /// Returns whether a token is held.
    fn any(&self) -> bool
        ensures { result ≡ not (length (tokens self.now) == 0) };

    /// Returns whether an exclusive token is held.
    fn exclusive(&self) -> bool
        ensures { result ≡ not ((bag_of_tokens (tokens self.now)).exclusive == 0) };

    /// Sets or clears the bar.
    fn set_bar(&mut self, barred: bool)
        ensures set { bar self.new ≡ barred }
        ensures tokens_kept { tokens self.new ≡ tokens self.old }
        ensures capacity_kept { capacity self.new ≡ capacity self.old }
        ensures limit_kept { reader_limit self.new ≡ reader_limit self.old };

    /// Returns whether the bar is set.
    fn barred(&self) -> bool
        ensures { result ≡ bar self.now };
}
