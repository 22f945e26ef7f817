//! Tests of the raw locks, of their timed calls and of their condition variables.
#![tactic(auto)]

#[cfg(test)]
mod tests;
