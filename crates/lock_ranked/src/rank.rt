//! Ranks: places in the order of all locks.
use std::marker::PhantomData;

/// A place in the order of all locks. The types of locks name it, and no value of it exists.
///
/// # Examples
///
/// ```
/// /// The registry comes before the pool.
/// type Registry<R, T> = RankedMutex<R, T, AtRank<10>>;
/// type Pool<R, T> = RankedMutex<R, T, AtRank<20>>;
/// ```
pub trait Rank {
    ghost use Rattle.std.specs.Prelude.{ℕ};

    ghost rank: { ℕ };
}

/// The rank `N`. Ranks of locks start at 1: at rank 0 a thread holds nothing.
pub struct AtRank<const N: u64>;

impl<const N: u64> Rank for AtRank<N> {
    ghost rank = { N };
}

/// The rank of `K`, in an order that is borrowed for `'o`. The guards name it.
///
/// The borrow lies in a type argument, so that a proof can follow writes through the guard. A raw pointer is neither
/// `Send` nor `Sync`, so the guard stays in the thread of its order.
pub struct Under<'o, K: Rank> {
    holds: PhantomData<&'o mut ()>,
    stays: PhantomData<*mut ()>,
    rank: PhantomData<K>,
}

impl<'o, K: Rank> Rank for Under<'o, K> {
    ghost rank = { K.rank };
}
