//! The raw lock with a journal.
use crate::arbiter::Arbiter;
use crate::monitor::Monitor;
use crate::recording_arbiter::RecordingArbiter;
use crate::token_raw::TableArbiter;
use lock_modes::{Fault, ModeStep};
use lock_raws::{RawLock, RecordingCore};
use std::alloc::Global;
use std::clone::Clone;
use std::sync::Wait;

/// An arbiter over a table of places, with a journal: the state behind a `RecordingRaw`.
pub type Recorded = RecordingArbiter<TableArbiter>;

/// `TokenRaw` with a journal of its steps: pick it to audit what threads did. The raw traits make it with
/// `DEFAULT_ENTRIES`. It has as many places as readers. A waiting writer refuses no reader.
pub type RecordingRaw<W> = RawLock<Monitor<Recorded, W>>;

impl<A: Arbiter, W: Wait + Clone + Drop> RecordingCore for Monitor<RecordingArbiter<A>, W> {
    fn with_room(
        alloc: Global,
        waiter: W,
        readers: u64,
        entries: usize,
    ) -> Result<Monitor<RecordingArbiter<A>, W>, Fault> {
        let arbiter: RecordingArbiter<A> = RecordingArbiter::with_room(alloc, readers, entries)?;
        Monitor::over(alloc, arbiter, waiter)
    }

    fn journal(&self, alloc: Global) -> Result<Vec<ModeStep>, Fault> {
        let arbiter = self.arbiter();
        let Ok(steps) = Vec::from_slice(alloc, arbiter.journal()) else {
            return Err(Fault::OutOfMemory);
        };
        Ok(steps)
    }

    fn stopped(&self) -> bool {
        self.arbiter().stopped()
    }
}
