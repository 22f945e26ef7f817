//! Tests of what waits at a raw lock: its timed calls, and the condition variables of `lock_raws_condvar`, which sleep until they
//! are notified or time out.
#![tactic(auto)]

#[cfg(test)]
mod tests;
