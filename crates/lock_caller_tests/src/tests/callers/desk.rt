//! What a caller knows of a `Desk`, from its contracts and from the laws.
ghost use Rattle.std.specs.Prelude.{◌≡◌, None, false, IfOk, IsOkUnless, IsTrue};
ghost use Rattle.std.specs.Option.{ForNone};
ghost use Rattle.std.specs.Fn.{FnOnceTakesAtMut};
ghost use Rattle.lock_api.specs.Bar.{has_announced};
ghost use Rattle.lock_api.specs.Closures.{AnswersAndLeaves};
ghost use Rattle.lock_api.specs.Kept.{is_refusal};
ghost use Rattle.lock_api.specs.Kind.{is_rwlock};
ghost use Rattle.lock_api.specs.Party.{id_of};
ghost use Rattle.lock_api.specs.Refusals.{guard_refusal, writing_guard};
ghost use Rattle.lock_api.specs.Sound.{IsSound};
ghost use Rattle.lock_caller_tests.specs.Words.{answer_of};

use crate::tests::callers::{Limit, Settings};
use lock_api::laws::runs_are_sound;
use lock_api::model::{Call, Desk, Op, RawState, Reply};
use lock_api::{At, Fault, PartyId};
use std::alloc::Global;

/// A law about every run holds of the machine after these calls, whatever they are.
pub fn run_sound<R: RawState, T, O: Op<T>>(
    alloc: Global,
    desk: &mut Desk<R, T>,
    calls: &[Call<O>],
) -> Result<Vec<Reply<O::Answer>>, Fault>
    requires { IsSound desk.old.register }
    ensures { IfOk result (λ _. IsSound desk.new.register) }
{
    runs_are_sound::<T, O>();
    desk.run(alloc, calls)
}

/// The clause of a call with a closure, passed on.
pub fn write_by<R: RawState, U, F: FnOnce(&mut u64) -> U + Drop>(
    desk: &mut Desk<R, u64>,
    party: PartyId,
    guard: u64,
    write: F,
) -> Result<U, Fault>
    requires { ForNone (guard_refusal desk.old.register writing_guard (id_of party) guard)
        (FnOnceTakesAtMut F.FnOnce write desk.old.value) }
    ensures { IfOk result (AnswersAndLeaves F.FnOnce write desk.old.value
        (λ left. desk.new ≡ record desk.old { value = left })) }
{
    desk.with_mut(party, guard, write)
}

/// A party that has announced itself can withdraw, and then the raw state has no bar.
pub fn without_bar<R: RawState, T>(desk: &mut Desk<R, T>, party: PartyId) -> bool
    requires kind { IsTrue (is_rwlock desk.old.kind) }
    requires announced { IsTrue (has_announced desk.old.bar (id_of party)) }
    ensures { result ≡ false }
{
    let _ = desk.withdraw(party);
    desk.raw().barred()
}

/// Reads a part of the value behind a `Desk`.
pub fn read_limit<R: RawState>(
    desk: &Desk<R, Settings>,
    party: PartyId,
    guard: u64,
) -> Result<u64, Fault> {
    desk.read_part(party, guard, &At(Limit), |limit| *limit)
}

/// A refused allocation is `OutOfMemory`.
pub fn two_places(alloc: Global) -> Result<Vec<u64>, Fault>
    ensures { IsOkUnless result Fault.OutOfMemory }
{
    Ok(Vec::with_capacity(alloc, 2)?)
}

/// The answer of an operation, by a definition of the caller's own. A refusal has none, as the laws state it.
pub fn answered<A: Copy>(reply: &Reply<A>) -> Option<A>
    ensures value { result ≡ answer_of reply.now }
    ensures refused { IsTrue (is_refusal reply.now) → result ≡ None }
{
    match reply {
        Reply::Guard(_) => None,
        Reply::NoGuard => None,
        Reply::Done => None,
        Reply::Answer(answer) => Some(*answer),
        Reply::Bool(_) => None,
        Reply::Count(_) => None,
        Reply::Refused(_) => None,
    }
}
