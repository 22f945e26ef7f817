//! Mutexes of one rank, ordered by their places.
mod place;
mod places;

ghost use Rattle.std.specs.Prelude.{◌≡◌, ◌≢◌, ◌<◌, IfOk, IsOkUnless};
ghost use Rattle.lock_ranked.specs.RowOrders.{next_of, row_of};
ghost use Rattle.lock_ranked.specs.Rows.{places_of, AreGuardsOf, IsGuardAt};

use crate::mutex::RankedMutexGuard;
use crate::order::{Acquired, Order};
use crate::rank::Rank;
use lock_modes::Fault;
use lock_mutex::MutexGuard;
use lock_traits::RawMutex;
pub use places::RankedMutexRow;
use places::RowOrder;
use std::alloc::Global;

impl<R: RawMutex, T, K: Rank> RankedMutexRow<R, T, K> {
    /// Acquires the mutex at `place`, blocking until it is available.
    pub fn lock<'a, 'o, B: Rank>(
        &'a self,
        order: &'o mut Order<'_, B>,
        place: usize,
    ) -> Acquired<'o, MutexGuard<'a, R, T>, B, K, K>
        requires rank { B.rank < K.rank }
        requires place { place < places_of self.now }
        ensures { IsGuardAt self.now place result.0 }
    {
        let (place, above) = self.at(order, place);
        (place.lock(), above)
    }
}

/// Acquisitions of several places. Only a `RowOrder` makes them, and it acquires upward.
impl<R: RawMutex, T, K: Rank> RankedMutexRow<R, T, K> {
    /// Acquires two of the mutexes, the one at the lower place first. It returns their guards in the order of the
    /// arguments. Neither guard can wait on a condition variable.
    pub fn lock_two<'a, 'o, B: Rank>(
        &'a self,
        order: &'o mut Order<'_, B>,
        left: usize,
        right: usize,
    ) -> (
        RankedMutexGuard<'a, 'o, R, T, K, K>,
        RankedMutexGuard<'a, 'o, R, T, K, K>,
        Order<'o, K>,
    )
        requires rank { B.rank < K.rank }
        requires left { left < places_of self.now }
        requires right { right < places_of self.now }
        requires apart { left ≢ right }
        ensures left { IsGuardAt self.now left result.0 }
        ensures right { IsGuardAt self.now right result.1 }
    {
        let mut row_order = RowOrder::start(self, order);
        if left < right {
            let first = row_order.step(left).lock();
            let second = row_order.step(right).lock();
            (first, second, row_order.end())
        } else {
            let second = row_order.step(right).lock();
            let first = row_order.step(left).lock();
            (first, second, row_order.end())
        }
    }

    /// Acquires all mutexes, in the order of places, and returns their guards in that order.
    ///
    /// # Errors
    ///
    /// `OutOfMemory` if there is no room for the guards. All mutexes are released then.
    pub fn lock_all<'a, 'o, B: Rank>(
        &'a self,
        alloc: Global,
        order: &'o mut Order<'_, B>,
    ) -> Result<(Vec<RankedMutexGuard<'a, 'o, R, T, K, K>>, Order<'o, K>), Fault>
        requires { B.rank < K.rank }
        ensures guards { IfOk result (λ all. AreGuardsOf self.now all.0.items) }
        ensures fault { IsOkUnless result Fault.OutOfMemory }
    {
        let mut row_order = RowOrder::start(self, order);
        let mut guards = Vec::new(alloc);
        for place in 0..self.len() {
            guards.push(row_order.step(place).lock())?;
        }
        Ok((guards, row_order.end()))
    }
}
