//! Tests of the model: sessions at a `Desk` with the expected replies, the laws of the machine, and the table of tokens.
#![tactic(auto)]

#[cfg(test)]
mod tests;
