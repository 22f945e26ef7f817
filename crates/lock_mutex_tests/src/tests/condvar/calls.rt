//! Waits whose conditions count their checks.
use lock_mutex::{Condvar, MutexGuard};
use lock_traits::{RawCondvarTimed, RawMutexTimed};

/// When a wait times out.
#[derive(Clone, Copy)]
pub enum WaitEnd<T> {
    Never,
    For(T),
    Until(T),
}

/// A wait of a condition variable. The number of a loop says how many of its checks are true.
#[derive(Clone, Copy)]
pub enum WaitCall<T> {
    Once(WaitEnd<T>),
    While(usize, WaitEnd<T>),
}

/// Makes a check, which is true for the first `trues` times.
fn check(trues: usize, checks: &mut usize) -> bool {
    let answer = *checks < trues;
    *checks = checks.wrapping_add(1);
    answer
}

/// Makes one wait. Returns whether it timed out.
fn wait<T, C: RawCondvarTimed>(
    condvar: &Condvar<C>,
    checks: &mut MutexGuard<'_, C::RawMutex, usize>,
    end: WaitEnd<T>,
) -> bool
where
    C::RawMutex: RawMutexTimed<Duration = T, Instant = T>,
{
    match end {
        WaitEnd::Never => {
            condvar.wait(checks);
            false
        }
        WaitEnd::For(timeout) => condvar.wait_for(checks, timeout).timed_out(),
        WaitEnd::Until(deadline) => condvar.wait_until(checks, deadline).timed_out(),
    }
}

/// Waits while the checks are true. Returns whether it timed out.
fn wait_while<T, C: RawCondvarTimed>(
    condvar: &Condvar<C>,
    checks: &mut MutexGuard<'_, C::RawMutex, usize>,
    trues: usize,
    end: WaitEnd<T>,
) -> bool
where
    C::RawMutex: RawMutexTimed<Duration = T, Instant = T>,
{
    let is_true = |checks: &mut usize| check(trues, checks);
    match end {
        WaitEnd::Never => {
            condvar.wait_while(checks, is_true);
            false
        }
        WaitEnd::For(timeout) => condvar.wait_while_for(checks, is_true, timeout).timed_out(),
        WaitEnd::Until(deadline) => condvar
            .wait_while_until(checks, is_true, deadline)
            .timed_out(),
    }
}

/// Makes the wait. Returns whether it timed out, and how many checks it made, which the value counts.
pub fn waited<T, C: RawCondvarTimed>(
    condvar: &Condvar<C>,
    checks: &mut MutexGuard<'_, C::RawMutex, usize>,
    call: WaitCall<T>,
) -> (bool, usize)
where
    C::RawMutex: RawMutexTimed<Duration = T, Instant = T>,
{
    **checks = 0;
    let timed_out = match call {
        WaitCall::Once(end) => wait(condvar, checks, end),
        WaitCall::While(trues, end) => wait_while(condvar, checks, trues, end),
    };
    (timed_out, **checks)
}
