//! Callers whose clauses show what they know, and the locks that the names of `lock_api` make.
mod callers;
mod full_raw_lock;
mod named;
mod signatures;
