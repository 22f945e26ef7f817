//! Threads that wait for one another.
ghost use Rattle.std.specs.Prelude.{true};
ghost use Rattle.std.specs.Fn.{FnReturns};

use lock_recorder::CallLog;
use std::sync::Wait;
use std::sync::atomic::{AtomicBool, Ordering};
use std::thread;

/// Blocks until the condition is true. It calls the condition again and again.
pub fn wait_until<W: Wait, F: Fn() -> bool>(waiter: &W, condition: F)
    requires { F.IsAlwaysCallable condition }
    ensures { FnReturns F.Fn condition tt true }
{
    for _ in waiter.forever() {
        if condition() {
            return;
        }
        thread::yield_now();
    }
    unreachable!()
}

/// Blocks until another thread raises the flag.
pub fn wait_for_flag<W: Wait>(waiter: &W, flag: &AtomicBool) {
    wait_until(waiter, || flag.load(Ordering::SeqCst));
}

/// Blocks until a raw lock has recorded so many calls.
pub fn wait_for_calls<W: Wait>(waiter: &W, log: &CallLog, least: usize) {
    wait_until(waiter, || log.count(waiter) >= least);
}
