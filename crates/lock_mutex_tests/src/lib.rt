//! Tests of `Mutex`, of its guards and of the condition variable.
#![tactic(auto)]

#[cfg(test)]
mod tests;
