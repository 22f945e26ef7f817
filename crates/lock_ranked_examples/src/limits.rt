//! A limit that is read often, and the number of its changes.
ghost use Rattle.std.specs.Prelude.{◌<◌, IsOkUnless};

use lock_api::ranked::{AtRank, Order, Rank, RankedRwLock, RankedRwLockUpgradableReadGuard};
use lock_api::{Fault, RawRwLockUpgrade};
use std::alloc::Global;
use std::clone::Clone;

/// The rank of the limit.
pub const LIMIT: u64 = 5;

/// The rank of the number of changes.
pub const CHANGES: u64 = 15;

/// A limit, and how often it has changed.
#[derive(Drop)]
pub struct Limits<R> {
    limit: RankedRwLock<R, u64, AtRank<LIMIT>>,
    changes: RankedRwLock<R, u64, AtRank<CHANGES>>,
}

impl<R: RawRwLockUpgrade> Limits<R> {
    /// Makes a limit that has not changed yet.
    pub fn new(alloc: Global, waiter: &R::Waiter, limit: u64) -> Result<Limits<R>, Fault>
    where
        R: Drop,
        ensures { IsOkUnless result Fault.OutOfMemory }
    {
        Ok(Limits {
            limit: RankedRwLock::new(alloc, waiter.clone()?, limit)?,
            changes: RankedRwLock::new(alloc, waiter.clone()?, 0)?,
        })
    }

    /// Returns the limit and the number of its changes, at one moment.
    pub fn look<B: Rank>(&self, order: &mut Order<'_, B>) -> (u64, u64)
        requires { B.rank < LIMIT }
    {
        let (limit, mut above) = self.limit.read(order);
        let (changes, _above) = self.changes.read(&mut above);
        (*limit, *changes)
    }

    /// Sets the limit.
    pub fn set<B: Rank>(&self, order: &mut Order<'_, B>, to: u64)
        requires { B.rank < LIMIT }
    {
        let (mut limit, mut above) = self.limit.write(order);
        let (mut changes, _above) = self.changes.write(&mut above);
        *limit = to;
        *changes = changes.wrapping_add(1);
    }

    /// Raises the limit to `least` if it is lower, and returns whether it was. Others read it until then.
    pub fn raise<B: Rank>(&self, order: &mut Order<'_, B>, least: u64) -> bool
        requires { B.rank < LIMIT }
    {
        let (reader, mut above) = self.limit.upgradable_read(order);
        let is_lower = *reader < least;
        if is_lower {
            let mut writer = RankedRwLockUpgradableReadGuard::upgrade(reader, &mut above);
            *writer = least;
            let (mut changes, _above) = self.changes.write(&mut above);
            *changes = changes.wrapping_add(1);
        }
        is_lower
    }
}
