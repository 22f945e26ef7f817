//! Lists of calls: one with proved replies, and any list.
ghost use Rattle.std.specs.Prelude.{◌≡◌, ◌+◌, ◌<◌, ◌^◌, [], ◌∷◌, IfOk};
ghost use Rattle.lock_api.specs.Entries.{held_bag};
ghost use Rattle.lock_api.specs.Modes.{AreCompatible};

use crate::desk::account::AccountOp;
use lock_api::laws::runs_are_sound;
use lock_api::model::{Call, Desk, Form, Op, RawState, Reply, Want};
use lock_api::{Fault, PartyId};
use std::alloc::Global;

/// Locks, deposits, and is refused a withdrawal of more than the balance.
pub fn deposit_under_lock<R: RawState>(
    alloc: Global,
    party: PartyId,
) -> Result<Vec<Reply<u64>>, Fault>
    ensures { IfOk result (λ replies. replies.items ≡
        Reply.Guard 1 ∷ Reply.Answer 250 ∷ Reply.Refused Fault.NoFocus ∷ []) }
{
    let mut desk: Desk<R, u64> = Desk::mutex(alloc, 1, 0)?;
    let calls = [
        Call::Acquire(Want::Lock, Form::Block, party),
        Call::Change(party, 1, AccountOp::Deposit(250)),
        Call::Change(party, 1, AccountOp::Withdraw(300)),
    ];
    desk.run(alloc, &calls)
}

/// Makes the calls on a new mutex. Whatever they are, the held modes are compatible afterwards.
pub fn run_new<R: RawState, O: Op<u64>>(
    alloc: Global,
    calls: &[Call<O>],
) -> Result<Desk<R, u64>, Fault>
where
    O::Answer: Drop,
    ensures { IfOk result (λ desk. AreCompatible 1 (held_bag desk.entries)) }
{
    runs_are_sound::<u64, O>();
    let mut desk: Desk<R, u64> = Desk::mutex(alloc, 4, 0)?;
    desk.run(alloc, calls)?;
    Ok(desk)
}
