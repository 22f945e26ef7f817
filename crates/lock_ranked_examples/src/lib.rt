//! Code that cannot deadlock on its locks: each lock has a rank, and each thread acquires upward.
#![tactic(auto)]

mod bank;
mod limits;
mod server;

pub use bank::{ACCOUNTS, Accounts, open, total, transfer, transfer_both_ways};
pub use limits::{CHANGES, LIMIT, Limits};
pub use server::{POOL, REGISTRY, SETTINGS, Server};
