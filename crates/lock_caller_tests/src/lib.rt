//! What a caller of `lock_api` knows, in small callers and signatures; and its names of locks.
#![tactic(auto)]

#[cfg(test)]
mod tests;
