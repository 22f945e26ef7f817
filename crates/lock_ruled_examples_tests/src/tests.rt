//! The examples under a rule, and those of a lock of one word, on threads.
mod gate;
mod ruled;
mod seated;
mod shared_permits;

/// The word while a writer holds the lock and none waits: bit 33 alone.
const WRITER_ALONE: u64 = 8_589_934_592;
