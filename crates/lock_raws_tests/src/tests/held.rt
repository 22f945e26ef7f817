//! At most one token of a raw lock, by mode.
ghost use Rattle.std.specs.Prelude.{◌≡◌, true};
ghost use Rattle.lock_modes.specs.declared.mode.Mode.{Mode};

use lock_modes::Mode::{self, Exclusive, Shared, Upgradable};
use lock_raws::{ExclusiveToken, LockCore, RawLock, SharedToken, UpgradableToken};
use lock_traits::{
    RawRwLock, RawRwLockDowngrade, RawRwLockFair, RawRwLockUpgrade, RawRwLockUpgradeDowngrade,
    RawRwLockUpgradeFair,
};

/// A shared token, with the lock that holds it.
pub struct Reader<'a, C: LockCore> {
    raw: &'a RawLock<C>,
    token: SharedToken<C::Token>,
    ghost own: { C.holds raw.now.core Mode.Shared token.token ≡ true },
}

/// An exclusive token, with the lock that holds it.
pub struct Writer<'a, C: LockCore> {
    raw: &'a RawLock<C>,
    token: ExclusiveToken<C::Token>,
    ghost own: { C.holds raw.now.core Mode.Exclusive token.token ≡ true },
}

/// An upgradable token, with the lock that holds it.
pub struct Upgrader<'a, C: LockCore> {
    raw: &'a RawLock<C>,
    token: UpgradableToken<C::Token>,
    ghost own: { C.holds raw.now.core Mode.Upgradable token.token ≡ true },
}

/// At most one token, with the lock that holds it.
pub enum RawHold<'a, C: LockCore> {
    Nothing,
    Reader(Reader<'a, C>),
    Writer(Writer<'a, C>),
    Upgrader(Upgrader<'a, C>),
}

impl<'a, C: LockCore> RawHold<'a, C> {
    pub fn reader(raw: &'a RawLock<C>, token: SharedToken<C::Token>) -> RawHold<'a, C>
        requires { C.holds raw.now.core Mode.Shared token.token ≡ true }
    {
        RawHold::Reader(Reader { raw, token })
    }

    pub fn writer(raw: &'a RawLock<C>, token: ExclusiveToken<C::Token>) -> RawHold<'a, C>
        requires { C.holds raw.now.core Mode.Exclusive token.token ≡ true }
    {
        RawHold::Writer(Writer { raw, token })
    }

    pub fn upgrader(raw: &'a RawLock<C>, token: UpgradableToken<C::Token>) -> RawHold<'a, C>
        requires { C.holds raw.now.core Mode.Upgradable token.token ≡ true }
    {
        RawHold::Upgrader(Upgrader { raw, token })
    }

    /// Acquires a token of the mode, blocking until it is admitted.
    pub fn lock(raw: &'a RawLock<C>, mode: Mode) -> RawHold<'a, C> {
        match mode {
            Shared => RawHold::reader(raw, raw.lock_shared()),
            Exclusive => RawHold::writer(raw, raw.lock_exclusive()),
            Upgradable => RawHold::upgrader(raw, raw.lock_upgradable()),
        }
    }

    /// `lock` without blocking.
    pub fn try_lock(raw: &'a RawLock<C>, mode: Mode) -> Option<RawHold<'a, C>> {
        Some(match mode {
            Shared => RawHold::reader(raw, raw.try_lock_shared()?),
            Exclusive => RawHold::writer(raw, raw.try_lock_exclusive()?),
            Upgradable => RawHold::upgrader(raw, raw.try_lock_upgradable()?),
        })
    }

    /// Releases the token, if there is one.
    pub fn unlock(self) {
        match self {
            RawHold::Nothing => {}
            RawHold::Reader(Reader { raw, token }) => raw.unlock_shared(token),
            RawHold::Writer(Writer { raw, token }) => raw.unlock_exclusive(token),
            RawHold::Upgrader(Upgrader { raw, token }) => raw.unlock_upgradable(token),
        }
    }

    /// Upgrades or downgrades the token to the mode. A token that cannot be, stays.
    pub fn change(self, to: Mode) -> RawHold<'a, C> {
        match (self, to) {
            (RawHold::Upgrader(Upgrader { raw, token }), Exclusive) => {
                RawHold::writer(raw, raw.upgrade(token))
            }
            (RawHold::Upgrader(Upgrader { raw, token }), Shared) => {
                RawHold::reader(raw, raw.downgrade_upgradable(token))
            }
            (RawHold::Writer(Writer { raw, token }), Shared) => {
                RawHold::reader(raw, raw.downgrade(token))
            }
            (RawHold::Writer(Writer { raw, token }), Upgradable) => {
                RawHold::upgrader(raw, raw.downgrade_to_upgradable(token))
            }
            (held, _) => held,
        }
    }

    /// Upgrades the token by a try, and by a blocking call if the try is refused. Also returns whether the try upgraded
    /// it.
    pub fn try_upgrade(self) -> (RawHold<'a, C>, bool) {
        match self {
            RawHold::Upgrader(Upgrader { raw, token }) => match raw.try_upgrade(token) {
                Ok(token) => (RawHold::writer(raw, token), true),
                Err(token) => (RawHold::writer(raw, raw.upgrade(token)), false),
            },
            held => (held, false),
        }
    }

    /// Bumps the token, if there is one.
    pub fn bump(self) -> RawHold<'a, C> {
        match self {
            RawHold::Nothing => RawHold::Nothing,
            RawHold::Reader(Reader { raw, token }) => RawHold::reader(raw, raw.bump_shared(token)),
            RawHold::Writer(Writer { raw, token }) => RawHold::writer(
                raw,
                raw.bump_exclusive(token),
            ),
            RawHold::Upgrader(Upgrader { raw, token }) => {
                RawHold::upgrader(raw, raw.bump_upgradable(token))
            }
        }
    }
}
