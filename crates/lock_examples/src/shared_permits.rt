//! Threads that share a semaphore by reference. None of them has a holder.
ghost use Rattle.std.specs.Prelude.{◌≡◌, ◌+◌};
ghost use Rattle.std.specs.Thread.{IsSync};

use lock_api::ruled::SharedSemaphore;
use std::sync::Wait;
use std::thread::{Threads, join};

/// Doubles the number while it holds a permit. At most as many threads do so at a time as there are permits.
pub fn double<R: Wait>(rt: &R, semaphore: &SharedSemaphore, number: u32) -> u64
    ensures { result ≡ number + number }
{
    let _permit = semaphore.guard(rt, 1);
    u64::from(number) + u64::from(number)
}

/// Doubles two numbers in two threads.
pub fn double_both<R: Threads + Wait + Sync>(
    rt: &R,
    semaphore: &SharedSemaphore,
    numbers: (u32, u32),
) -> (u64, u64)
    ensures first { result.0 ≡ numbers.0 + numbers.0 }
    ensures second { result.1 ≡ numbers.1 + numbers.1 }
{
    let (first, second) = numbers;
    join(
        rt,
        move || -> u64
            requires { IsSync R.row }
            ensures { result ≡ first + first }
        { double(rt, semaphore, first) },
        move || -> u64
            requires { IsSync R.row }
            ensures { result ≡ second + second }
        { double(rt, semaphore, second) },
    )
}
