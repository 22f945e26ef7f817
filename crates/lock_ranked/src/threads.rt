//! Threads, each with an order of its own. A thread that waits for another one holds no ranked lock.
ghost use Rattle.std.specs.Prelude.{IsOkUnless};

use crate::order::{Order, ThreadOrder};
use crate::rank::AtRank;
use lock_modes::Fault;
use std::thread;
use std::thread::{JoinHandle, Threads};

/// A thread that `spawn_ranked` started. Its drop detaches the thread.
#[derive(Drop)]
pub struct RankedThread<T> {
    handle: JoinHandle<T>,
}

/// Starts a thread that runs `f` with an order of its own.
///
/// # Errors
///
/// `OutOfMemory` if no thread can be started. `f` is dropped then.
pub fn spawn_ranked<
    R: Threads,
    F: FnOnce(ThreadOrder) -> T + Send + Drop + 'static,
    T: Send + Drop + 'static,
>(rt: &R, f: F) -> Result<RankedThread<T>, Fault>
    requires { F.IsAlwaysCallable f }
    ensures { IsOkUnless result Fault.OutOfMemory }
{
    match thread::spawn(rt, move || f(ThreadOrder::start())) {
        Ok(handle) => Ok(RankedThread { handle }),
        Err(_) => Err(Fault::OutOfMemory),
    }
}

impl<T> RankedThread<T> {
    /// Blocks until the thread ends, and returns its result. The order at 0 shows that the caller holds no ranked lock.
    ///
    /// No contract says what the result is: std's handle does not tell which closure ran. `join_ranked` says it.
    pub fn join<R: Threads>(self, rt: &R, _order: &mut Order<'_, AtRank<0>>) -> T {
        let RankedThread { handle } = self;
        handle.join(rt)
    }
}

/// Runs two closures at once, each with an order of its own, and returns both results. The caller holds no ranked lock.
pub fn join_ranked<
    R: Threads,
    F: FnOnce(ThreadOrder) -> A + Send,
    G: FnOnce(ThreadOrder) -> B,
    A: Send,
    B,
>(rt: &R, _order: &mut Order<'_, AtRank<0>>, left: F, right: G) -> (A, B)
    requires left { F.IsAlwaysCallable left }
    requires right { G.IsAlwaysCallable right }
    ensures left { (own : _) × F.post left own result.0 }
    ensures right { (own : _) × G.post right own result.1 }
{
    thread::join(
        rt,
        move || left(ThreadOrder::start()),
        move || right(ThreadOrder::start()),
    )
}
