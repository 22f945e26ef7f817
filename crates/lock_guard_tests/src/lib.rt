//! Tests of `RwLock` and of its guards, of guards that own a reference to a lock of any kind, and of locks whose raw
//! lock delays each release.
#![tactic(auto)]

#[cfg(test)]
mod tests;
