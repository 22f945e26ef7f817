//! Deadlines: the time until one, and the proof that one has passed.
#![tactic(auto)]

mod deadline;

pub use deadline::{Passed, time_left, time_until};
