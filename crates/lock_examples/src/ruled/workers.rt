//! Workers that share the permits of a semaphore.
ghost use Rattle.std.specs.Prelude.{◌≡◌, ◌≤◌, IfOk};
ghost use Rattle.std.specs.Thread.{IsSync};

use lock_api::Fault;
use lock_api::ruled::{Holder, Semaphore};
use std::alloc::Global;
use std::sync::Wait;
use std::thread::{Threads, join};

/// Takes this many permits for a while, `turns` times.
pub fn work_in_turns<R: Wait>(
    rt: &R,
    semaphore: &Semaphore,
    holder: Holder,
    permits: u64,
    turns: u64,
) -> Holder
    requires { holder.mutex ≡ semaphore.now }
    ensures { result ≡ holder }
{
    let mut holder = holder;
    for _ in 0..turns {
        let lease = semaphore.lease(rt, holder, permits);
        holder = lease.end(rt, semaphore);
    }
    holder
}

/// Returns how many permits are free after two threads have worked with them: all.
pub fn permits_after<R: Threads + Wait + Sync>(
    rt: &R,
    alloc: Global,
    permits: u64,
    each: u64,
    turns: u64,
) -> Result<u64, Fault>
    ensures { IfOk result (λ free. free ≡ permits) }
{
    let (semaphore, holder) = Semaphore::new(alloc, permits)?;
    let shared = &semaphore;
    let (first, second) = semaphore.split(holder);
    let (first, second) = join(
        rt,
        move || -> Holder
            requires { IsSync R.row × (first.mutex ≡ shared.now) }
            ensures { result ≡ first }
        { work_in_turns(rt, shared, first, each, turns) },
        move || -> Holder
            requires { IsSync R.row × (second.mutex ≡ shared.now) }
            ensures { result ≡ second }
        { work_in_turns(rt, shared, second, each, turns) },
    );
    let holder = semaphore.join(first, second);
    Ok(semaphore.into_permits(holder))
}
