//! What tests of the locks share: raw locks that admit everything, watches of raw calls, projections of pairs, flags
//! between threads, and checks of answers.
#![tactic(auto)]

pub mod answer;
mod flags;
mod four_threads;
mod parties;
pub mod project;
pub mod raw_lock;

pub use flags::{wait_for_calls, wait_for_flag, wait_until};
pub use four_threads::{Count, add_in_four_threads};
pub use parties::{party, two_parties};
