//! One mutex of a row.
ghost use Rattle.std.specs.Prelude.{◌≡◌};
ghost use Rattle.lock_ranked.specs.Guards.{mutex_of};
ghost use Rattle.lock_ranked.specs.Rows.{mutex_at};

use crate::mutex::RankedMutexGuard;
use crate::rank::{Rank, Under};
use crate::ranked::Ranked;
use lock_mutex::Mutex;
use lock_traits::RawMutex;
use std::marker::PhantomData;

/// The permission to acquire one mutex of a row, in an order at `B`. Its call reaches no other mutex.
pub struct RowPlace<'a, 'o, R, T, B: Rank, K: Rank> {
    mutex: &'a Mutex<R, T>,
    ranks: PhantomData<(Under<'o, B>, K)>,
}

impl<'a, 'o, R, T, B: Rank, K: Rank> RowPlace<'a, 'o, R, T, B, K> {
    pub(super) fn new(mutex: &'a Mutex<R, T>) -> Self
        ensures { mutex_at result ≡ mutex.now }
    {
        RowPlace {
            mutex,
            ranks: PhantomData,
        }
    }
}

impl<'a, 'o, R: RawMutex, T, B: Rank, K: Rank> RowPlace<'a, 'o, R, T, B, K> {
    /// Acquires the mutex, blocking until it is available.
    #[inline(always)]
    pub(super) fn lock(self) -> RankedMutexGuard<'a, 'o, R, T, B, K>
        ensures { mutex_of result ≡ mutex_at self.entry }
    {
        let RowPlace { mutex, ranks: _ } = self;
        Ranked::new(mutex.lock())
    }
}
