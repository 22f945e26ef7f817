//! What a crate that lists `lock_api` alone can build and prove. Each module reads by itself.
#![tactic(auto)]

pub mod desk;
pub mod gate;
mod parts;
mod pool;
mod queue;
mod registry;
mod ring;
pub mod ruled;
pub mod seated;
pub mod shared_permits;
mod shelf;
mod spin_lock;

pub use parts::{Element, Job, Progress};
pub use pool::{Lease, Pool};
pub use queue::Queue;
pub use registry::{EntryGuard, EntryOf, Registry, read_twice};
pub use ring::Ring;
pub use shelf::{Loan, Shelf};
pub use spin_lock::{SpinLock, SpinReader, SpinWriter};
