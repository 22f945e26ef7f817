//! Tests of the examples of ranked locks: what a server, a limit and a bank answer, and a bank on eight threads.
#![tactic(auto)]

#[cfg(test)]
mod tests;
