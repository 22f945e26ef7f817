//! Tests of the laws of plans, at an operation.
#![tactic(auto)]

#[cfg(test)]
mod tests;
