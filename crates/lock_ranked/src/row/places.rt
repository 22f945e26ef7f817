//! The mutexes of a row. Only a `RowOrder` reaches several of them.
//!
//! No impl of this file says that `R` is a raw lock, so no body of it can lock.
ghost use Rattle.std.specs.Prelude.{◌≡◌, ◌+◌, ◌<◌, ◌≤◌, vec_len};
ghost use Rattle.lock_ranked.specs.RowOrders.{next_of, row_of};
ghost use Rattle.lock_ranked.specs.Rows.{mutexes_of, places_of, IsPlaceAt};

use crate::order::Order;
use crate::rank::Rank;
use crate::row::place::RowPlace;
use lock_mutex::Mutex;
use std::marker::PhantomData;
use std::snapshot::Snapshot;

/// Mutexes of one rank, such as the accounts of a bank. A thread that acquires several does so in the order of places.
///
/// # Examples
///
/// ```
/// fn sum<R: RawMutex>(
///     accounts: &RankedMutexRow<R, u64, AtRank<30>>,
///     order: &mut Order<'_, AtRank<0>>,
///     (left, right): (usize, usize),
/// ) -> u64
///     requires left { left < places_of accounts.now }
///     requires right { right < places_of accounts.now }
///     requires apart { left ≢ right }
/// {
///     let (one, two, _above) = accounts.lock_two(order, left, right);
///     one.wrapping_add(*two)
/// }
/// ```
#[derive(Drop)]
pub struct RankedMutexRow<R, T, K: Rank> {
    mutexes: Vec<Mutex<R, T>>,
    rank: PhantomData<K>,
}

impl<R, T, K: Rank> RankedMutexRow<R, T, K> {
    /// Gives mutexes their rank, and each its place.
    pub fn from_mutexes(mutexes: Vec<Mutex<R, T>>) -> RankedMutexRow<R, T, K>
        ensures places { places_of result ≡ vec_len mutexes }
        ensures mutexes { mutexes_of result ≡ mutexes.items }
    {
        RankedMutexRow {
            mutexes,
            rank: PhantomData,
        }
    }

    /// Returns the number of mutexes.
    pub fn len(&self) -> usize
        ensures { result ≡ places_of self.now }
    {
        self.mutexes.len()
    }

    /// Returns the mutex at `place`, and the order for the acquisitions after it.
    pub(super) fn at<'a, 'o, B: Rank>(
        &'a self,
        order: &'o mut Order<'_, B>,
        place: usize,
    ) -> (RowPlace<'a, 'o, R, T, B, K>, Order<'o, K>)
        requires rank { B.rank < K.rank }
        requires place { place < places_of self.now }
        ensures { IsPlaceAt self.now place result.0 }
    {
        (RowPlace::new(&self.mutexes[place]), order.above::<K, K>())
    }
}

/// The permission to acquire the mutexes of a row, each at a higher place than the last one. It has no bytes but a
/// reference to the row.
#[derive(Drop)]
pub struct RowOrder<'a, 'o, R, T, K: Rank> {
    row: &'a RankedMutexRow<R, T, K>,
    next: Snapshot<usize>,
    above: Order<'o, K>,
}

impl<'a, 'o, R, T, K: Rank> RowOrder<'a, 'o, R, T, K> {
    /// Starts at the first place, in an order that is borrowed for as long as the guards live.
    pub fn start<B: Rank>(row: &'a RankedMutexRow<R, T, K>, order: &'o mut Order<'_, B>) -> Self
        requires { B.rank < K.rank }
        ensures row { row_of result ≡ row.now }
        ensures next { next_of result ≡ 0 }
    {
        RowOrder {
            row,
            next: Snapshot::of(&0),
            above: order.above::<K, K>(),
        }
    }

    /// Returns the mutex at `place`. The next one is at a higher place.
    #[inline(always)]
    pub(super) fn step(&mut self, place: usize) -> RowPlace<'a, 'o, R, T, K, K>
        requires place { place < places_of (row_of self.old) }
        requires above { next_of self.old ≤ place }
        ensures place { IsPlaceAt (row_of self.old) place result }
        ensures row { row_of self.new ≡ row_of self.old }
        ensures next { next_of self.new ≡ place + 1 }
    {
        self.next = Snapshot::of(&(place + 1));
        RowPlace::new(&self.row.mutexes[place])
    }

    /// Ends the acquisitions. The order that it returns is at `K`.
    pub fn end(self) -> Order<'o, K> {
        self.above
    }
}
