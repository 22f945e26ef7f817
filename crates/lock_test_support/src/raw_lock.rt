//! Raw locks for tests that admit everything, checks of the raw calls of a guard, and the maps of one.
mod admits_all;
mod admits_all_rwlock;
mod call_watch;
mod map_call;
mod parts;

pub use admits_all::AdmitsAll;
pub use call_watch::CallWatch;
pub use map_call::{MAPS, MapCall};
pub use parts::{watch_fair_end, watch_write};
