//! What no contract and no script of `conform/` says of the mutex and the condition variable.
mod condition_loop;
mod condvar;
mod mutex;
mod texts;
