//! The core of a raw lock.
ghost use Rattle.std.specs.Prelude.{◌≡◌, ◌↔◌, ◌⊎◌, Bool, true, ⊤, Option, None, IsTrue, IfSome, IfNone, IfErr, IfOk, OnErr};
ghost use Rattle.std.specs.Result.{result_ok};
ghost use Rattle.lock_modes.specs.declared.mode.Mode.{Mode};
ghost use Rattle.lock_modes.specs.Limits.{IsLimit, IsMakerFault};
ghost use Rattle.lock_raws.specs.Downgrades.{is_downgrade};

use lock_modes::{Fault, Mode};
use std::alloc::Global;
use std::clone::Clone;
use std::sync::Wait;

/// Acquires, tries, releases and changes tokens by mode. `RawLock` makes it a raw lock with all raw traits.
///
/// The trait is safe to implement. A core that admits too many threads can make calls block; it can never cause a data
/// race.
pub trait LockCore: Sized + Drop {
    /// The token of one acquisition, which a release consumes.
    type Token;

    /// The permission to block, for the raw lock and the guards over it.
    type Waiter: Wait + Clone + Drop;

    /// The type of timeouts.
    type Duration: Drop;

    /// The type of deadlines.
    type Instant: Drop;

    /// Whether this lock holds the token in the mode. A core that takes any token leaves it at `true`.
    ghost holds: { Self → Mode → Self.Token → Bool } = { λ _ _ _. true };

    /// What `try_acquire` did, by its answer. A core that states nothing leaves it at `⊤`. Code over any core can have it from
    /// `try_acquire` alone.
    ghost tried: { Self → Mode → Option Self.Token → Type 0 } = { λ _ _ _. ⊤ };

    /// What `try_upgrade` did, by the token that it made.
    ghost tried_upgrade: { Self → Option Self.Token → Type 0 } = { λ _ _. ⊤ };

    /// What a refusal of `try_acquire_until` rests on, if it was none of a plain try. A core that states nothing leaves it at
    /// `⊤`.
    ghost late: { Self → Mode → Type 0 } = { λ _ _. ⊤ };

    /// What a refusal of `try_upgrade_until` rests on, if it was none of a plain try.
    ghost late_upgrade: { Self → Type 0 } = { λ _. ⊤ };

    /// Makes an unlocked core. At most `readers` tokens are shared or upgradable at a time.
    fn new(alloc: Global, waiter: Self::Waiter, readers: u64) -> Result<Self, Fault>
        ensures limits { (result ≡ Err Fault.BadLimits) ↔ (IsLimit readers → ⊥) }
        ensures in_range { IfOk result (λ _. IsLimit readers) }
        ensures fault { IfErr result IsMakerFault };

    /// Returns the permission to block that the core was made with.
    fn waiter(&self) -> &Self::Waiter;

    /// Returns whether a token is held. The answer may be stale at once.
    fn is_locked(&self) -> bool;

    /// Returns whether an exclusive token is held. The answer may be stale at once.
    fn is_locked_exclusive(&self) -> bool;

    /// Acquires the mode, blocking until it is admitted.
    fn acquire(&self, mode: Mode) -> Self::Token
        ensures { holds self.now mode result ≡ true };

    /// Acquires exclusively, blocking until it is admitted. A core may refuse later threads meanwhile. If its `acquire`
    /// does so, it keeps this default.
    fn acquire_announced(&self) -> Self::Token
        ensures { holds self.now Mode.Exclusive result ≡ true }
    {
        self.acquire(Mode::Exclusive)
    }

    /// Acquires the mode without blocking, or returns `None` where `acquire` would block.
    fn try_acquire(&self, mode: Mode) -> Option<Self::Token>
        ensures held { IfSome result (λ token. holds self.now mode token ≡ true) }
        ensures tried { tried self.now mode result };

    /// Tries to acquire the mode until `deadline`. A core that measures no time leaves it a plain try.
    fn try_acquire_until(&self, mode: Mode, _deadline: Self::Instant) -> Option<Self::Token>
        ensures held { IfSome result (λ token. holds self.now mode token ≡ true) }
        ensures refused { IfNone result (late self.now mode ⊎ tried self.now mode None) }
    {
        self.try_acquire(mode)
    }

    /// Releases a token of the mode.
    fn release(&self, token: Self::Token, mode: Mode)
        requires { holds self.now mode token ≡ true };

    /// Makes an upgradable token exclusive, blocking until no other token is held.
    fn upgrade(&self, token: Self::Token) -> Self::Token
        requires { holds self.now Mode.Upgradable token ≡ true }
        ensures { holds self.now Mode.Exclusive result ≡ true };

    /// Makes an upgradable token exclusive without blocking, or returns it unchanged where `upgrade` would block.
    fn try_upgrade(&self, token: Self::Token) -> Result<Self::Token, Self::Token>
        requires { holds self.now Mode.Upgradable token ≡ true }
        ensures held { IfOk result (λ upgraded. holds self.now Mode.Exclusive upgraded ≡ true) }
        ensures back { IfErr result (λ back. back ≡ token) }
        ensures tried { tried_upgrade self.now (result_ok result) };

    /// Tries to make an upgradable token exclusive until `deadline`, or returns it unchanged. A core that measures no time
    /// leaves it a plain try.
    fn try_upgrade_until(
        &self,
        token: Self::Token,
        _deadline: Self::Instant,
    ) -> Result<Self::Token, Self::Token>
        requires { holds self.now Mode.Upgradable token ≡ true }
        ensures held { IfOk result (λ upgraded. holds self.now Mode.Exclusive upgraded ≡ true) }
        ensures back { IfErr result (λ back. back ≡ token) }
        ensures refused { OnErr result (late_upgrade self.now ⊎ tried_upgrade self.now None) }
    {
        self.try_upgrade(token)
    }

    /// Downgrades a token from one mode to another.
    fn downgrade(&self, token: Self::Token, from: Mode, to: Mode) -> Self::Token
        requires down { IsTrue (is_downgrade from to) }
        requires held { holds self.now from token ≡ true }
        ensures { holds self.now to result ≡ true };

    /// Returns the instant that is `timeout` from now, or `None` if it cannot be represented.
    fn instant_after(&self, timeout: Self::Duration) -> Option<Self::Instant>;
}
