//! The order in which one thread acquires.
ghost use Rattle.std.specs.Prelude.{◌≡◌, ◌<◌, ◌≤◌};

use crate::rank::{AtRank, Rank, Under};
use crate::ranked::Ranked;
use std::marker::PhantomData;

/// The permission of one thread to block for locks whose rank is above `K`.
///
/// While an order can be used, its thread holds no ranked lock above `K`. An acquisition borrows the order, and returns
/// a higher one. The borrow ends when the guard and the higher order end, in any order.
///
/// It has no bytes, and stays in its thread.
///
/// # Examples
///
/// ```
/// fn both<R: RawMutex>(
///     order: &mut Order<'_, AtRank<0>>,
///     first: &RankedMutex<R, u64, AtRank<1>>,
///     second: &RankedMutex<R, u64, AtRank<2>>,
/// ) -> u64 {
///     let (one, mut above) = first.lock(order);
///     let (two, _above) = second.lock(&mut above);
///     one.wrapping_add(*two)
/// }
/// ```
#[derive(Drop)]
pub struct Order<'o, K: Rank> {
    under: PhantomData<Under<'o, K>>,
}

impl<'o, K: Rank> Order<'o, K> {
    fn new() -> Order<'o, K> {
        Order { under: PhantomData }
    }
}

/// What an acquisition returns: the guard at `K`, and the order at `N` for the acquisitions after it.
pub type Acquired<'o, G, B, K, N> = (Ranked<G, Under<'o, B>, K>, Order<'o, N>);

impl<B: Rank> Order<'_, B> {
    /// Borrows the order for an acquisition of a lock at `K`, and returns one at `N`. Only it and `acquired` make a higher
    /// order.
    pub(crate) fn above<'o, K: Rank, N: Rank>(&'o mut self) -> Order<'o, N>
        requires { (B.rank < N.rank) × (K.rank ≤ N.rank) }
    {
        Order::new()
    }

    /// `above`, with the guard of the acquisition.
    #[inline(always)]
    pub(crate) fn acquired<'o, G, K: Rank, N: Rank>(
        &'o mut self,
        guard: G,
    ) -> Acquired<'o, G, B, K, N>
        requires { (B.rank < N.rank) × (K.rank ≤ N.rank) }
        ensures { result.0.guard ≡ guard }
    {
        (Ranked::new(guard), self.above::<K, N>())
    }
}

/// The right of one thread to have an order. It has no bytes, and stays in its thread.
#[derive(Drop)]
pub struct ThreadOrder {
    stays: PhantomData<*mut ()>,
}

impl ThreadOrder {
    /// Starts the order of a thread that holds no ranked lock.
    ///
    /// Call it once, in `main` or in a test. Nothing refuses a second call in the same thread, and a thread with two
    /// orders may deadlock. `spawn_ranked` and `join_ranked` give each thread its own.
    ///
    /// # Examples
    ///
    /// ```
    /// fn main(rt: HostRuntime) {
    ///     let mut thread = ThreadOrder::start();
    ///     serve(&rt, &mut thread.order());
    /// }
    /// ```
    pub fn start() -> ThreadOrder {
        ThreadOrder { stays: PhantomData }
    }

    /// Returns the order of a thread that holds no ranked lock.
    pub fn order(&mut self) -> Order<'_, AtRank<0>> {
        Order::new()
    }
}

/// An order has no bytes.
const _: () = prove!(std::mem::size_of::<Order<'static, AtRank<0>>>() == 0);
