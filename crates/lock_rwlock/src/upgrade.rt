//! The ways to try an upgrade of a token.
ghost use Rattle.std.specs.Prelude.{◌≡◌, true, Option, IfOk, IfErr};
ghost use Rattle.std.specs.Result.{result_ok};

use lock_traits::{RawRwLock, RawRwLockUpgrade, RawRwLockUpgradeTimed};

/// The exclusive token of an upgrade, or the upgradable one if the raw lock refused.
pub(crate) type Upgraded<R> = Result<
    <R as RawRwLock>::ExclusiveGuard,
    <R as RawRwLockUpgrade>::UpgradableGuard,
>;

/// A way to try to make an upgradable token of the raw lock exclusive.
pub(crate) trait TryUpgrade<R: RawRwLockUpgrade>: Sized {
    /// What the raw lock's try did, by the token that it made.
    ghost tried: { Self → R → Option R.ExclusiveGuard → Type 0 };

    /// Makes the token exclusive, or returns it unchanged if the raw lock refuses.
    fn make(self, raw: &R, token: R::UpgradableGuard) -> Upgraded<R>
        requires { R.owns_upgradable raw.now token ≡ true }
        ensures own { IfOk result (λ upgraded. R.owns_exclusive raw.now upgraded ≡ true) }
        ensures back { IfErr result (λ back. back ≡ token) }
        ensures tried { tried self raw.now (result_ok result) };
}

/// A try that does not block.
#[derive(Drop)]
pub(crate) struct AtOnce;

/// A try that may block for at most this time.
pub(crate) struct For<R: RawRwLockUpgradeTimed>(pub(crate) R::Duration);

/// A try that may block until this instant.
pub(crate) struct Until<R: RawRwLockUpgradeTimed>(pub(crate) R::Instant);

impl<R: RawRwLockUpgrade> TryUpgrade<R> for AtOnce {
    ghost tried = { λ _ raw made. R.tried_upgrade raw made };

    fn make(self, raw: &R, token: R::UpgradableGuard) -> Upgraded<R> {
        raw.try_upgrade(token)
    }
}

impl<R: RawRwLockUpgradeTimed> TryUpgrade<R> for For<R> {
    ghost tried = { λ attempt raw made. R.tried_upgrade_for raw attempt.0 made };

    fn make(self, raw: &R, token: R::UpgradableGuard) -> Upgraded<R> {
        let For(timeout) = self;
        raw.try_upgrade_for(token, timeout)
    }
}

impl<R: RawRwLockUpgradeTimed> TryUpgrade<R> for Until<R> {
    ghost tried = { λ attempt raw made. R.tried_upgrade_until raw attempt.0 made };

    fn make(self, raw: &R, token: R::UpgradableGuard) -> Upgraded<R> {
        let Until(deadline) = self;
        raw.try_upgrade_until(token, deadline)
    }
}
