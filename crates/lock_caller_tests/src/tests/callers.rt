//! Small callers. The clause of each function shows what a caller knows.
mod arcs;
mod desk;
mod each_lock;
mod journals;
mod mapped;
mod mutexes;
mod rwlocks;
mod settings;
mod waits;

pub use each_lock::{read_within, write_under_each};
pub use settings::{Limit, Settings};
