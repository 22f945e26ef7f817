//! The guards of a reader-writer lock with a rank. An upgrade or a downgrade keeps the rank.
ghost use Rattle.std.specs.Prelude.{◌≡◌, option_and_then, MatchResult};
ghost use Rattle.std.specs.Result.{result_ok};
ghost use Rattle.std.specs.Sync.RwLock.{read_guard_value};
ghost use Rattle.lock_guard.specs.GuardPart.{guard_part};
ghost use Rattle.lock_guard.specs.Held.{held_value};
ghost use Rattle.lock_guard.specs.Mapped.{IsMapOf};
ghost use Rattle.lock_ranked.specs.MappedGuards.{mapped_of, IsMappedOr};
ghost use Rattle.lock_ranked.specs.RwLockGuards.{held_of, raw_under, token_of, SameLock, ShowsSame};

use crate::order::Order;
use crate::rank::{Rank, Under};
use crate::ranked::{Ranked, RankedMapped, ranked};
use lock_guard::guard::{Acquire, AcquireFair, ValueGuard};
use lock_parts::{TryView, View};
use lock_rwlock::{
    Exclusive, InMode, Mappable, MappedRwLockReadGuard, MappedRwLockWriteGuard, RwLockGuard,
    RwLockReadGuard, RwLockUpgradableReadGuard, RwLockWriteGuard, Upgradable,
};
use lock_traits::{
    RawRwLockDowngrade, RawRwLockUpgrade, RawRwLockUpgradeDowngrade, RawRwLockUpgradeTimed,
};

/// A guard of a reader-writer lock of rank `K` in one mode, acquired in an order at `B`. It releases the lock on drop, and
/// until then that order is borrowed. A guard of another mode stays at its rank.
pub type RankedRwLockGuard<L, B, K> = Ranked<RwLockGuard<L>, B, K>;

/// A read guard of a ranked lock: it reads the value, next to other readers.
pub type RankedRwLockReadGuard<'a, 'o, R, T, B, K> = Ranked<
    RwLockReadGuard<'a, R, T>,
    Under<'o, B>,
    K,
>;

/// A write guard of a ranked lock: it reads and writes the value.
pub type RankedRwLockWriteGuard<'a, 'o, R, T, B, K> = Ranked<
    RwLockWriteGuard<'a, R, T>,
    Under<'o, B>,
    K,
>;

/// An upgradable read guard of a ranked lock: it reads the value, next to readers, and can become the writer.
pub type RankedRwLockUpgradableReadGuard<'a, 'o, R, T, B, K> = Ranked<
    RwLockUpgradableReadGuard<'a, R, T>,
    Under<'o, B>,
    K,
>;

/// A read guard of a part of the value of a ranked lock.
pub type RankedMappedRwLockReadGuard<'a, 'o, R, T, P, B, K> = Ranked<
    MappedRwLockReadGuard<'a, R, T, P>,
    Under<'o, B>,
    K,
>;

/// A write guard of a part of the value of a ranked lock.
pub type RankedMappedRwLockWriteGuard<'a, 'o, R, T, P, B, K> = Ranked<
    MappedRwLockWriteGuard<'a, R, T, P>,
    Under<'o, B>,
    K,
>;

impl<L: Acquire, B: Rank, K: Rank> RankedRwLockGuard<L, B, K> {
    /// Releases the lock, runs `f`, and reacquires the lock in the same mode, blocking until it is available. The order
    /// at `K` shows that the thread holds nothing that it acquired since.
    pub fn unlocked<U, F: FnOnce() -> U>(guard: &mut Self, _order: &mut Order<'_, K>, f: F) -> U
        requires { F.IsAlwaysCallable f }
        ensures answer { F.post f result }
        ensures lock { (held_of guard.new).lock ≡ (held_of guard.old).lock }
    {
        RwLockGuard::unlocked(&mut guard.guard, f)
    }
}

impl<L: AcquireFair, B: Rank, K: Rank> RankedRwLockGuard<L, B, K> {
    /// Releases the lock by a fair release.
    pub fn unlock_fair(guard: Self) {
        RwLockGuard::unlock_fair(guard.into_guard());
    }

    /// Releases the lock by a fair release, and reacquires it, blocking until it is available. The order is as for
    /// `unlocked`.
    pub fn bump(guard: &mut Self, _order: &mut Order<'_, K>)
        ensures { (held_of guard.new).lock ≡ (held_of guard.old).lock }
    {
        RwLockGuard::bump(&mut guard.guard);
    }
}

impl<L: Mappable, B: Rank, K: Rank> RankedRwLockGuard<L, B, K> {
    /// Makes the guard of a part, by a projection that always has one. The lock stays held.
    pub fn map<P: View<<L::Shown as ValueGuard>::Value>>(
        guard: Self,
        projection: P,
    ) -> RankedMapped<L, P, B, K>
        ensures { IsMapOf (held_of guard) projection (mapped_of result) }
    {
        Ranked::new(RwLockGuard::map(guard.into_guard(), projection))
    }

    /// Makes the guard of a part, or returns the same guard, still held, if the value has no such part.
    pub fn try_map<P: TryView<<L::Shown as ValueGuard>::Value>>(
        guard: Self,
        projection: P,
    ) -> Result<RankedMapped<L, P, B, K>, Self>
        ensures { IsMappedOr
            (guard_part (held_value L.Shown.value_of) (P.part projection) (held_of guard))
            (held_of guard) projection (λ back. back ≡ guard) result }
    {
        ranked!(RwLockGuard::try_map(guard.into_guard(), projection))
    }
}

impl<'a, R: RawRwLockDowngrade, T, B: Rank, K: Rank> RankedRwLockGuard<
    InMode<'a, Exclusive, R, T>,
    B,
    K,
> {
    /// Downgrades the guard to a read guard. It never blocks.
    pub fn downgrade(guard: Self) -> Ranked<RwLockReadGuard<'a, R, T>, B, K>
        ensures { SameLock guard.entry result }
    {
        Ranked::new(RwLockWriteGuard::downgrade(guard.into_guard()))
    }
}

impl<'a, R: RawRwLockUpgradeDowngrade, T, B: Rank, K: Rank> RankedRwLockGuard<
    InMode<'a, Exclusive, R, T>,
    B,
    K,
> {
    /// Downgrades the guard to an upgradable read guard. It never blocks.
    pub fn downgrade_to_upgradable(guard: Self) -> Ranked<RwLockUpgradableReadGuard<'a, R, T>, B, K>
        ensures { SameLock guard.entry result }
    {
        Ranked::new(RwLockWriteGuard::downgrade_to_upgradable(guard.into_guard()))
    }
}

impl<'a, R: RawRwLockUpgrade, T, B: Rank, K: Rank> RankedRwLockGuard<
    InMode<'a, Upgradable, R, T>,
    B,
    K,
> {
    /// Upgrades the guard to a write guard, blocking until no other guard is held.
    ///
    /// It waits for readers, and a reader may wait for any lock above `K`. So the order at `K` shows that the thread
    /// holds nothing that it acquired since.
    pub fn upgrade(
        guard: Self,
        _order: &mut Order<'_, K>,
    ) -> Ranked<RwLockWriteGuard<'a, R, T>, B, K>
        ensures { SameLock guard.entry result }
    {
        Ranked::new(RwLockUpgradableReadGuard::upgrade(guard.into_guard()))
    }

    /// Upgrades the guard without blocking, or returns it unchanged if the raw lock refuses.
    pub fn try_upgrade(guard: Self) -> Result<Ranked<RwLockWriteGuard<'a, R, T>, B, K>, Self>
        ensures lock { MatchResult result (SameLock guard.entry) (λ same. same ≡ guard.entry) }
        ensures tried { R.tried_upgrade (raw_under guard.entry) (option_and_then token_of (result_ok result)) }
    {
        ranked!(RwLockUpgradableReadGuard::try_upgrade(guard.into_guard()))
    }
}

impl<'a, R: RawRwLockUpgradeTimed, T, B: Rank, K: Rank> RankedRwLockGuard<
    InMode<'a, Upgradable, R, T>,
    B,
    K,
> {
    /// `try_upgrade`, where the raw lock may block for at most `timeout`.
    pub fn try_upgrade_for(
        guard: Self,
        timeout: R::Duration,
    ) -> Result<Ranked<RwLockWriteGuard<'a, R, T>, B, K>, Self>
        ensures lock { MatchResult result (SameLock guard.entry) (λ same. same ≡ guard.entry) }
        ensures tried { R.tried_upgrade_for (raw_under guard.entry) timeout
            (option_and_then token_of (result_ok result)) }
    {
        ranked!(RwLockUpgradableReadGuard::try_upgrade_for(guard.into_guard(), timeout))
    }

    /// `try_upgrade`, where the raw lock may block until `deadline`.
    pub fn try_upgrade_until(
        guard: Self,
        deadline: R::Instant,
    ) -> Result<Ranked<RwLockWriteGuard<'a, R, T>, B, K>, Self>
        ensures lock { MatchResult result (SameLock guard.entry) (λ same. same ≡ guard.entry) }
        ensures tried { R.tried_upgrade_until (raw_under guard.entry) deadline
            (option_and_then token_of (result_ok result)) }
    {
        ranked!(RwLockUpgradableReadGuard::try_upgrade_until(guard.into_guard(), deadline))
    }
}

impl<'a, R: RawRwLockUpgradeDowngrade, T, B: Rank, K: Rank> RankedRwLockGuard<
    InMode<'a, Upgradable, R, T>,
    B,
    K,
> {
    /// Downgrades the guard to a read guard, which shows the same value. It never blocks.
    pub fn downgrade(guard: Self) -> Ranked<RwLockReadGuard<'a, R, T>, B, K>
        ensures lock { SameLock guard.entry result }
        ensures value { ShowsSame read_guard_value guard.entry result }
    {
        Ranked::new(RwLockUpgradableReadGuard::downgrade(guard.into_guard()))
    }
}
