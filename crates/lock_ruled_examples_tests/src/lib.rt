//! What the examples under a rule and those of a lock of one word answer when threads use them, which no contract states.
#![tactic(auto)]

#[cfg(test)]
mod tests;
