//! A lock that a script's calls are made on, and its guards.
use lock_machine::{Call, Form, Reply, Want, Way};
use lock_modes::{Fault, PartyId};
use lock_script::PairOp;

/// What is there after a call: the guard, unless the call released it, and the answer.
pub type After<G, U> = (Option<G>, U);

/// A shared lock over a pair, with one type for its guards of all modes.
pub trait Driven {
    type Guard: ScriptGuard;

    /// Acquires the lock.
    ///
    /// # Errors
    ///
    /// `OutOfMemory` if memory is refused, and another fault if the lock refuses.
    fn acquire(&self, want: Want, form: Form, party: PartyId) -> Result<Self::Guard, Fault>;

    /// Makes a call that changes the value or the mode. The reply is `NoGuard` if the lock refuses it, and `WrongKind` if
    /// the guard has no such call.
    fn change_guard(guard: Self::Guard, call: Call<PairOp>) -> After<Self::Guard, Reply<i64>>;

    /// Makes a call that needs no guard. The reply is `WrongKind` if the lock has no such call.
    fn call_lock(&self, call: Call<PairOp>) -> Reply<i64>;
}

/// The calls that guards of every mode have. A call takes the guard and returns it.
pub trait ScriptGuard: Sized + Drop {
    /// Releases the guard. One that borrows its lock has no `Arc` to return.
    fn release(self, way: Way);

    /// Releases the lock by a fair release, and acquires it again.
    fn bumped(self) -> Self;

    /// Asks the operation of the pair.
    fn asked(&self, operation: PairOp) -> Reply<i64>;

    /// Releases the lock, runs `f`, and acquires the lock again.
    fn unlocked<U, F: FnOnce() -> U>(self, way: Way, f: F) -> After<Self, U>
        requires { F.IsAlwaysCallable f }
        ensures { F.post f result.1 };
}

/// Makes a call on a guard. The reply is `NoGuard` if the lock refuses it, and `WrongKind` if the guard has no such call.
pub(crate) fn call_guard<D: Driven>(
    guard: D::Guard,
    call: Call<PairOp>,
) -> After<D::Guard, Reply<i64>> {
    match call {
        Call::Unlock(_, _, way) => {
            guard.release(way);
            (None, Reply::Done)
        }
        Call::Bump(_, _) => (Some(guard.bumped()), Reply::Done),
        Call::Get(_, _, operation) => {
            let reply = guard.asked(operation);
            (Some(guard), reply)
        }
        call => D::change_guard(guard, call),
    }
}
