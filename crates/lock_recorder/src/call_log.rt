//! A list of raw calls that a raw lock writes and its caller reads.
ghost use Rattle.std.specs.Prelude.{IsOkUnless};

use crate::raw_call::RawCall;
use lock_modes::Fault;
use std::alloc::Global;
use std::mem;
use std::sync::{Arc, Mutex, Wait};

/// A list of raw calls, in order. All that `another` returns are the same list.
#[derive(Drop)]
pub struct CallLog {
    list: Arc<Mutex<Vec<RawCall>>>,
    alloc: Global,
}

impl CallLog {
    pub fn new(alloc: Global) -> Result<CallLog, Fault>
        ensures { IsOkUnless result Fault.OutOfMemory }
    {
        let list = Arc::new(alloc, Mutex::new(Vec::new(alloc)))?;
        Ok(CallLog { list, alloc })
    }

    /// Returns the same list again.
    pub fn another(&self) -> Result<CallLog, Fault>
        ensures { IsOkUnless result Fault.OutOfMemory }
    {
        let list = Arc::try_clone(&self.list)?;
        Ok(CallLog {
            list,
            alloc: self.alloc,
        })
    }

    /// Appends a call. Without memory it is left out.
    pub fn add<W: Wait>(&self, waiter: &W, call: RawCall) {
        let _ = self.list.lock(waiter).push(call);
    }

    /// Returns whether no call is recorded, or being recorded.
    pub fn is_empty(&self) -> bool {
        match self.list.try_lock() {
            Some(list) => list.is_empty(),
            None => false,
        }
    }

    /// Returns how many calls are recorded.
    pub fn count<W: Wait>(&self, waiter: &W) -> usize {
        self.list.lock(waiter).len()
    }

    /// Takes all calls out of the list, or returns `None` while another thread appends one.
    pub fn take(&self) -> Option<Vec<RawCall>> {
        let mut list = self.list.try_lock()?;
        Some(mem::replace(&mut *list, Vec::new(self.alloc)))
    }
}
