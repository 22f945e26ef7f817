//! The tokens of a raw lock, by mode. Only this crate makes them.

/// The token of a shared acquisition.
#[derive(Drop)]
pub struct SharedToken<T> {
    pub(crate) token: T,
}

/// The token of an exclusive acquisition.
#[derive(Drop)]
pub struct ExclusiveToken<T> {
    pub(crate) token: T,
}

/// The token of an upgradable acquisition.
#[derive(Drop)]
pub struct UpgradableToken<T> {
    pub(crate) token: T,
}
