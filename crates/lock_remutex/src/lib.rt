//! A mutex that its owner may acquire again.
#![tactic(auto)]

mod arc;
mod arc_guard;
mod mapped;
mod owner_table;
mod raw_reentrant_mutex;
mod reentrant_mutex;
mod reentrant_mutex_guard;
mod text;

pub use arc_guard::ArcReentrantMutexGuard;
pub use mapped::MappedReentrantMutexGuard;
pub use raw_reentrant_mutex::RawReentrantMutex;
pub use reentrant_mutex::ReentrantMutex;
pub use reentrant_mutex_guard::ReentrantMutexGuard;
