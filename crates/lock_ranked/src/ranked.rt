//! Plain locks and guards with ranks.
ghost use Rattle.std.specs.Prelude.{◌≡◌};
ghost use Rattle.std.specs.Borrow.{Lends, sem};

use crate::rank::{AtRank, Rank, Under};
use lock_guard::guard::{Acquire, Held, LockGuard, LockGuardMut, Mapped, ValueGuardMut};
use lock_mutex::Guard;
use lock_parts::Project;
use lock_rwlock::RwLockGuard;
use std::fmt;
use std::fmt::{Debug, Display, Formatter};
use std::marker::PhantomData;
use std::ops::{Deref, DerefMut};

/// A plain lock of rank `K`.
#[derive(Drop)]
pub struct RankedLock<L, K: Rank> {
    pub(crate) lock: L,
    rank: PhantomData<K>,
}

impl<L, K: Rank> RankedLock<L, K> {
    pub(crate) fn of(lock: L) -> Self
        ensures { result.lock ≡ lock }
    {
        RankedLock {
            lock,
            rank: PhantomData,
        }
    }
}

impl<L: Debug, K: Rank> Debug for RankedLock<L, K> {
    fn fmt<W: fmt::Write>(&self, f: &mut Formatter<W>) -> fmt::Result {
        self.lock.fmt(f)
    }
}

/// A plain guard of a lock of rank `K`, acquired in an order at `B`. It releases the lock on drop, and until then that
/// order is borrowed.
#[derive(Drop)]
pub struct Ranked<G, B: Rank, K: Rank> {
    pub(crate) guard: G,
    ranks: PhantomData<(B, K)>,
}

/// A guard of a part of the value of a ranked lock. It releases the lock on drop, and until then the order is borrowed.
pub type RankedMapped<L, P, B, K> = Ranked<Mapped<Held<L>, P>, B, K>;

impl<G, B: Rank, K: Rank> Ranked<G, B, K> {
    pub(crate) fn new(guard: G) -> Self
        ensures { result.guard ≡ guard }
    {
        Ranked {
            guard,
            ranks: PhantomData,
        }
    }

    pub(crate) fn into_guard(self) -> G
        ensures { result ≡ self.guard }
    {
        self.guard
    }
}

/// A rank adds no bytes to a lock, and none to a guard.
const _: () = prove!(std::mem::size_of::<RankedLock<u64, AtRank<1>>>() == 8);

const _: () = prove!(std::mem::size_of::<Ranked<u64, Under<'static, AtRank<0>>, AtRank<1>>>() == 8);

/// Gives the guard of either answer the ranks of the guard that was asked.
macro_rules! ranked {
    ($answer:expr) => {
        match $answer {
            Ok(made) => Ok($crate::ranked::Ranked::new(made)),
            Err(same) => Err($crate::ranked::Ranked::new(same)),
        }
    };
}

pub(crate) use ranked;

impl<G: Deref, B: Rank, K: Rank> Deref for Ranked<G, B, K> {
    type Target = G::Target;

    ghost deref_gives = { λ ranked value. G.deref_gives ranked.guard value };

    fn deref(&self) -> &G::Target {
        self.guard.deref()
    }
}

/// A plain guard that gives write access to the value.
pub trait PlainGuardMut: DerefMut {
    /// The guard with another value.
    ghost with_value: { Self → Self.Target → Self };

    fn value_mut(&mut self) -> &mut Self::Target
        ensures* writes_back { sem 𝓛 (Lends Self.row Self.Target.row self.entry result
            (with_value self.old)) }
        ensures value { Self.deref_mut_gives self.old result.now };
}

impl<G: PlainGuardMut, B: Rank, K: Rank> DerefMut for Ranked<G, B, K> {
    ghost use Rattle.lock_ranked.specs.Guards.{with_value};
    ghost use Rattle.lock_ranked.specs.contracts.ranked.Ranked.{the_row};

    ghost deref_mut_gives = { λ ranked value. G.deref_mut_gives ranked.guard value };

    fn deref_mut(&mut self) -> &mut G::Target
        ensures* writes_back { sem 𝓛 (Lends (the_row G.row B.row K.row) G.Target.row
            self.entry result (with_value G.with_value self.old)) }
        ensures value { G.deref_mut_gives self.old.guard result.now }
    {
        self.guard.value_mut()
    }
}

impl<L: Acquire> PlainGuardMut for Guard<L>
where
    L::Shown: ValueGuardMut,
{
    ghost use Rattle.lock_ranked.specs.Guards.{plain_with_value};

    ghost with_value = { plain_with_value L.Shown.with_value };

    fn value_mut(&mut self) -> &mut Self::Target {
        self.deref_mut()
    }
}

impl<L: Acquire> PlainGuardMut for RwLockGuard<L>
where
    L::Shown: ValueGuardMut,
{
    ghost use Rattle.lock_ranked.specs.RwLockGuards.{plain_with_value};

    ghost with_value = { plain_with_value L.Shown.with_value };

    fn value_mut(&mut self) -> &mut Self::Target {
        self.deref_mut()
    }
}

impl<G: LockGuardMut, P: Project<G::Value> + Copy> PlainGuardMut for Mapped<G, P> {
    ghost use Rattle.lock_guard.specs.Mapped.{mapped_with_part};

    ghost with_value = { mapped_with_part G.value_of G.with_value P.lens };

    fn value_mut(&mut self) -> &mut Self::Target {
        self.deref_mut()
    }
}

impl<G: Debug, B: Rank, K: Rank> Debug for Ranked<G, B, K> {
    fn fmt<W: fmt::Write>(&self, f: &mut Formatter<W>) -> fmt::Result {
        self.guard.fmt(f)
    }
}

impl<G: Display, B: Rank, K: Rank> Display for Ranked<G, B, K> {
    fn fmt<W: fmt::Write>(&self, f: &mut Formatter<W>) -> fmt::Result {
        self.guard.fmt(f)
    }
}
