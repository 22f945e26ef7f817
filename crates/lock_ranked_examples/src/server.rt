//! A server with settings, a registry and a pool.
ghost use Rattle.std.specs.Prelude.{◌≡◌, ◌<◌, IsOkUnless};

use lock_api::ranked::{AtRank, Order, Rank, RankedCondvar, RankedMutex};
use lock_api::{Fault, RawCondvar, RawMutex};
use std::alloc::Global;
use std::clone::Clone;

/// The rank of the settings, the lowest one.
pub const SETTINGS: u64 = 5;

/// The rank of the registry.
pub const REGISTRY: u64 = 10;

/// The rank of the pool.
pub const POOL: u64 = 20;

/// Its locks are acquired in the order of their ranks.
#[derive(Drop)]
pub struct Server<C: RawCondvar> {
    most: RankedMutex<C::RawMutex, u64, AtRank<SETTINGS>>,
    clients: RankedMutex<C::RawMutex, u64, AtRank<REGISTRY>>,
    places: RankedMutex<C::RawMutex, u64, AtRank<POOL>>,
    freed: RankedCondvar<C>,
}

impl<C: RawCondvar> Server<C> {
    /// Makes a server for at most so many clients, with so many places in its pool.
    pub fn new(
        alloc: Global,
        waiter: &<C::RawMutex as RawMutex>::Waiter,
        most: u64,
        places: u64,
    ) -> Result<Server<C>, Fault>
    where
        C::RawMutex: Drop,
        ensures { IsOkUnless result Fault.OutOfMemory }
    {
        Ok(Server {
            most: RankedMutex::new(alloc, waiter.clone()?, most)?,
            clients: RankedMutex::new(alloc, waiter.clone()?, 0)?,
            places: RankedMutex::new(alloc, waiter.clone()?, places)?,
            freed: RankedCondvar::new(alloc)?,
        })
    }

    /// Takes a place of the pool, if one is free. It may be called under any lock below the pool.
    pub fn take<B: Rank>(&self, order: &mut Order<'_, B>) -> Option<u64>
        requires { B.rank < POOL }
    {
        let (mut places, _above) = self.places.lock(order);
        *places = places.checked_sub(1)?;
        Some(*places)
    }

    /// Gives a place back, and wakes a thread that waits for one.
    pub fn give<B: Rank>(&self, order: &mut Order<'_, B>)
        requires { B.rank < POOL }
    {
        let (mut places, _above) = self.places.lock(order);
        *places = places.wrapping_add(1);
        drop(places);
        self.freed.notify_one();
    }

    /// Counts a client, and takes a place for it. The registry is held for the length of `take`.
    pub fn enter<B: Rank>(&self, order: &mut Order<'_, B>) -> Option<u64>
        requires { B.rank < SETTINGS }
    {
        let (most, mut above_settings) = self.most.lock(order);
        let (mut clients, mut above_registry) = self.clients.lock(&mut above_settings);
        if *clients >= *most {
            return None;
        }
        drop(most);
        let taken = self.take(&mut above_registry)?;
        *clients = clients.wrapping_add(1);
        Some(taken)
    }

    /// Takes a place under the registry if that is free, and without it otherwise.
    pub fn try_enter<B: Rank>(&self, order: &mut Order<'_, B>) -> Option<u64>
        requires { B.rank < REGISTRY }
    {
        if let Some((clients, mut above)) = self.clients.try_lock::<B, AtRank<REGISTRY>>(order) {
            return self.take(&mut above).map(|taken| taken.min(*clients));
        }
        self.take(order)
    }

    /// Blocks until a place is free, and takes it. The thread holds nothing else.
    pub fn wait_for_place(&self, order: &mut Order<'_, AtRank<0>>) {
        let (mut places, mut above) = self.places.lock(order);
        self.freed
            .wait_while(&mut places, &mut above, |places| *places == 0);
        *places = places.wrapping_sub(1);
    }

    /// Empties the pool. A read after the write returns what was written.
    pub fn empty<B: Rank>(&self, order: &mut Order<'_, B>) -> u64
        requires { B.rank < POOL }
        ensures { result ≡ 0 }
    {
        let (mut places, _above) = self.places.lock(order);
        *places = 0;
        *places
    }
}
