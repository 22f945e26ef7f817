//! Scripts of `lock_conform` on an example's raw lock.
#![tactic(auto)]

#[cfg(test)]
mod tests;
