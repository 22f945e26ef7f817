//! A gate that several threads wait at until its keeper opens it. They sleep, and no wake-up is lost.
ghost use Rattle.std.specs.Prelude.{◌≡◌, IfOk};
ghost use Rattle.lock_api.specs.declared.model.Mode.TheVariants.{Shared, Exclusive};
ghost use Rattle.lock_api.specs.WordCalls.{IsTokenOf};
ghost use Rattle.lock_examples.specs.Gate.{IsClosed, IsOpen};

use lock_api::Fault;
use lock_api::model::Mode;
use lock_api::raw::{WordLock, WordToken};
use std::alloc::Global;
use std::sync::Wait;
use std::sync::atomic::{AtomicU64, Ordering};
use std::thread::{Threads, join, yield_now};

/// Closes the gate once all that are inside have left. Visitors that come meanwhile wait outside.
pub fn close<R: Wait>(rt: &R, gate: &WordLock) -> WordToken
    ensures { IsTokenOf gate.now Exclusive result }
{
    gate.acquire(rt, Mode::Exclusive)
}

/// Opens the gate, and wakes all that sleep at it. The keeper is inside now.
pub fn open(gate: &WordLock, keeper: WordToken) -> WordToken
    requires { IsTokenOf gate.now Exclusive keeper }
    ensures { IsTokenOf gate.now Shared result }
{
    gate.downgrade(keeper)
}

/// Blocks until the gate is open, and goes inside. Returns the word, which has no keeper while the visitor is inside.
pub fn pass<R: Wait>(rt: &R, gate: &WordLock) -> (u64, WordToken)
    ensures open { IsOpen result.0 }
    ensures inside { IsTokenOf gate.now Shared result.1 }
{
    let visitor = gate.acquire(rt, Mode::Shared);
    gate.load(visitor)
}

/// Goes outside again.
pub fn leave(gate: &WordLock, visitor: WordToken)
    requires { IsTokenOf gate.now Shared visitor }
{
    gate.release(visitor, Mode::Shared);
}

/// Opens the gate once so many visitors wait at it, and stays inside. Returns the word that the keeper loaded before.
fn open_for<R: Wait>(
    rt: &R,
    gate: &WordLock,
    keeper: WordToken,
    arrived: &AtomicU64,
    waiting: u64,
) -> (u64, WordToken)
    requires { IsTokenOf gate.now Exclusive keeper }
    ensures closed { IsClosed result.0 }
    ensures inside { IsTokenOf gate.now Shared result.1 }
{
    for _ in rt.forever() {
        if arrived.load(Ordering::SeqCst) == waiting && gate.may_have_sleepers() {
            break;
        }
        yield_now();
    }
    let (word, keeper) = gate.load(keeper);
    (word, open(gate, keeper))
}

/// Closes the gate, opens it once so many visitors wait at it, and leaves. Returns the word that the keeper loaded before
/// it opened the gate.
fn keep<R: Wait>(rt: &R, gate: &WordLock, arrived: &AtomicU64, waiting: u64) -> u64
    ensures { IsClosed result }
{
    let keeper = close(rt, gate);
    let (word, keeper) = open_for(rt, gate, keeper, arrived, waiting);
    leave(gate, keeper);
    word
}

/// Passes the gate once a keeper has closed it, and leaves. Returns the word that the visitor loaded inside.
fn visit<R: Wait>(rt: &R, gate: &WordLock, arrived: &AtomicU64) -> u64
    ensures { IsOpen result }
{
    for _ in rt.forever() {
        if gate.is_locked_exclusive() {
            break;
        }
        yield_now();
    }
    arrived.fetch_add(1, Ordering::SeqCst);
    let (word, visitor) = pass(rt, gate);
    leave(gate, visitor);
    word
}

/// What was loaded at a gate.
#[derive(Clone, Copy, PartialEq, Eq, Debug)]
pub struct Sights {
    /// The keeper's word before it opened the gate.
    pub closed: u64,
    /// The words of the two visitors while they were inside.
    pub inside: (u64, u64),
    /// Whether nobody was inside at the end.
    pub is_empty: bool,
}

/// A keeper opens its gate once two visitors wait at it, each on its thread. At most `places` are inside at a time.
pub fn open_for_two<R: Threads + Wait + Sync>(
    rt: &R,
    alloc: Global,
    places: u64,
) -> Result<Sights, Fault>
    ensures closed { IfOk result (λ seen. IsClosed seen.closed) }
    ensures open { IfOk result (λ seen. IsOpen seen.inside.0 × IsOpen seen.inside.1) }
{
    let gate = WordLock::new(alloc, places)?;
    let arrived = AtomicU64::new(0);
    let (closed, inside) = join(
        rt,
        || keep(rt, &gate, &arrived, 2),
        || join(
            rt,
            || visit(rt, &gate, &arrived),
            || visit(rt, &gate, &arrived),
        ),
    );
    Ok(Sights {
        closed,
        inside,
        is_empty: !gate.is_locked(),
    })
}
