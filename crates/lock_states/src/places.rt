//! The places of a table, which are read and written one at a time.
ghost use Rattle.std.specs.Prelude.{◌≡◌, ◌-◌, ◌<◌, [], length, IfOk, IfErr, Some, slice_get, slice_set};
ghost use Rattle.lock_states.specs.TableState.{tokens_of};
ghost use Rattle.lock_states.specs.Places.{modes_in, IsChain, one_access_more};

use lock_modes::{Fault, Mode};
use std::alloc::Global;
use std::marker::Model;

/// A place: free, with the next free place, or taken in a mode.
#[derive(Clone, Copy, PartialEq, Eq, Debug)]
pub enum Place {
    Free(Option<usize>),
    Taken(Mode),
}

/// The places of a table, and a count of reads and writes. The count stays at 2^64 - 1 once there.
#[derive(Drop)]
pub struct Places {
    places: Vec<Place>,
    count: u64,
}

impl Model for Places {
    ghost use Rattle.lock_states.specs.Places as specs;

    ghost Value = { specs.Places };

    ghost view = { λ p. record { places = p.places.items; count = p.count } };
}

impl Places {
    /// Makes `places` free places. Each names the one before it as the next free one.
    pub fn new(alloc: Global, places: usize) -> Result<Places, Fault>
        ensures fault { IfErr result (λ fault. fault ≡ Fault.OutOfMemory) }
        ensures number { IfOk result (λ p. length p.places ≡ places) }
        ensures free { IfOk result (λ p. tokens_of (modes_in p.places) ≡ []) }
        ensures chained { 0 < places → IfOk result (λ p. IsChain p.places places (Some (places - 1))) }
        ensures count { IfOk result (λ p. p.count ≡ 0) }
    {
        let mut free = Vec::with_capacity(alloc, places)?;
        let mut start = None;
        for place in 0..places {
            free.push_reserved(Place::Free(start));
            start = Some(place);
        }
        Ok(Places {
            places: free,
            count: 0,
        })
    }

    /// Returns how many places there are.
    pub fn len(&self) -> usize
        ensures { result ≡ length self.now.places }
    {
        self.places.len()
    }

    /// Returns a place.
    pub fn read(&mut self, place: usize) -> Place
        requires { place < length self.old.places }
        ensures value { slice_get self.old.places place ≡ Some result }
        ensures places { self.new.places ≡ self.old.places }
        ensures count { self.new.count ≡ one_access_more self.old.count }
    {
        self.count = self.count.saturating_add(1);
        self.places[place]
    }

    /// Replaces a place.
    pub fn write(&mut self, place: usize, value: Place)
        requires { place < length self.old.places }
        ensures places { self.new.places ≡ slice_set self.old.places place value }
        ensures count { self.new.count ≡ one_access_more self.old.count }
    {
        self.count = self.count.saturating_add(1);
        self.places[place] = value;
    }
}
