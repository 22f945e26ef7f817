//! Tests of `ReentrantMutex` and of its guards.
#![tactic(auto)]

#[cfg(test)]
mod tests;
