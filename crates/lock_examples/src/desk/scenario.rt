//! A scenario with proved answers: two parties and one lock.
ghost use Rattle.std.specs.Prelude.{◌≡◌, None, IfOk, IsOkUnless};

use lock_api::model::{Desk, RawState, Way};
use lock_api::{Fault, PartyId};
use std::alloc::Global;

/// The answers to the parties.
#[derive(PartialEq, Eq, Debug, Drop)]
pub struct Answers {
    pub locked: Result<u64, Fault>,
    pub tried: Result<Option<u64>, Fault>,
    pub asked: Result<u64, Fault>,
    pub locked_again: Result<u64, Fault>,
}

/// The first party locks, the second party's try and blocking call are refused, and it acquires once the first has
/// released.
pub fn two_parties_acquire<R: RawState>(
    alloc: Global,
    first: PartyId,
    second: PartyId,
) -> Result<Answers, Fault>
    ensures locked { IfOk result (λ answers. answers.locked ≡ Ok 1) }
    ensures tried { IfOk result (λ answers. answers.tried ≡ Ok None) }
    ensures asked { IfOk result (λ answers. answers.asked ≡ Err Fault.WouldWait) }
    ensures locked_again { IfOk result (λ answers. answers.locked_again ≡ Ok 2) }
    ensures fault { IsOkUnless result Fault.OutOfMemory }
{
    let mut desk: Desk<R, u64> = Desk::mutex(alloc, 2, 0)?;
    let locked = desk.lock(first);
    let tried = desk.try_lock(second);
    let asked = desk.lock(second);
    let _ = desk.unlock(first, 1, Way::Plain);
    let locked_again = desk.lock(second);
    Ok(Answers {
        locked,
        tried,
        asked,
        locked_again,
    })
}
