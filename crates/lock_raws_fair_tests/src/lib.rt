//! Tests of the raw locks that admit in the order of arrival: which thread they admit when, and that they starve no
//! thread.
#![tactic(auto)]

#[cfg(test)]
mod tests;
