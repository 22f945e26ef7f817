//! A reader-writer lock of one word: a driver that makes the actions of `lock_one` on the word of a table.
#![tactic(auto)]

mod acquisitions;
mod changes;
mod driver;
mod laws;
mod plays;
mod releases;
mod rule;
mod tries;
mod until;
mod word_lock;

pub use laws::every_state_is_legal;
pub use rule::{OneRule, OneView};
pub use word_lock::{WordLock, WordToken};
