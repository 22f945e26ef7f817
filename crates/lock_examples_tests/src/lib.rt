//! What the examples of shared locks answer when threads use them, which no contract states.
#![tactic(auto)]

#[cfg(test)]
mod tests;
