//! The packed word in a `World` and under threads, callers that prove what they load, and tests of what sleeps on words:
//! word locks, event counts, mutexes under a rule and semaphores.
#![tactic(auto)]

pub mod callers;
#[cfg(test)]
mod tests;
