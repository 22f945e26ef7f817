//! A desk that is a mutex.
use crate::tests::check;
use crate::tests::maker::DeskMaker;
use crate::tests::operations::Add;
use lock_machine::{Call, Form, Reply, Want, Way};
use lock_modes::Fault;
use lock_test_support::party;
use std::test::Fail;

#[test]
fn spent_is_give_backs(rt: HostRuntime) -> Result<(), Fail> {
    let one = party(1)?;
    let session = [
        (Call::Acquire(Want::Lock, Form::Block, one), Reply::Guard(1)),
        (Call::Park(one, 1), Reply::Done),
        (Call::IsLocked, Reply::Bool(false)),
        (Call::Resume(one, 1), Reply::Done),
        (Call::Bump(one, 1), Reply::Done),
        (Call::ParkFair(one, 1), Reply::Done),
        (Call::Resume(one, 1), Reply::Done),
        (
            Call::Get(one, 1, Add(u64::MAX)),
            Reply::Refused(Fault::NoFocus),
        ),
        (Call::Unlock(one, 1, Way::Fair), Reply::Done),
        (Call::Spent, Reply::Count(4)),
        (Call::Acquire(Want::Lock, Form::For, one), Reply::Guard(2)),
        (Call::Unlock(one, 2, Way::Plain), Reply::Done),
        (Call::Acquire(Want::Lock, Form::Until, one), Reply::Guard(3)),
        (Call::Unlock(one, 3, Way::IntoArc), Reply::Done),
        (Call::Acquire(Want::Lock, Form::Try, one), Reply::Guard(4)),
        (Call::Unlock(one, 4, Way::IntoArcFair), Reply::Done),
        (Call::Spent, Reply::Count(7)),
        (Call::Acquire(Want::Lock, Form::Block, one), Reply::Guard(5)),
        (Call::Park(one, 5), Reply::Done),
        (Call::Abandon(one, 5), Reply::Done),
        (Call::Spent, Reply::Count(8)),
        (Call::IsLocked, Reply::Bool(false)),
    ];
    check(rt.alloc(), DeskMaker::Mutex(4, 1), &session)?;
    Ok(())
}
