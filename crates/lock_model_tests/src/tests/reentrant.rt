//! A desk that is a reentrant lock.
use crate::tests::check;
use crate::tests::maker::DeskMaker;
use crate::tests::operations::Add;
use lock_machine::{Call, Form, Reply, Want, Way};
use lock_modes::{Fault, PartyId};
use lock_test_support::two_parties;
use std::alloc::Global;
use std::test::Fail;

/// The outer level ends first, and the inner one releases the token.
fn last_level_releases(alloc: Global, one: PartyId) -> Result<(), Fail> {
    let session = [
        (Call::Acquire(Want::Lock, Form::Block, one), Reply::Guard(1)),
        (Call::Acquire(Want::Lock, Form::Block, one), Reply::Guard(2)),
        (Call::Unlock(one, 1, Way::Plain), Reply::Done),
        (Call::Spent, Reply::Count(0)),
        (Call::Bump(one, 2), Reply::Done),
        (Call::Spent, Reply::Count(1)),
        (Call::Park(one, 2), Reply::Done),
        (Call::Spent, Reply::Count(2)),
        (Call::Resume(one, 2), Reply::Done),
        (Call::Unlock(one, 2, Way::Fair), Reply::Done),
        (Call::Spent, Reply::Count(3)),
        (Call::IsLocked, Reply::Bool(false)),
    ];
    Ok(check::<Add>(alloc, DeskMaker::Reentrant(4, 4, 0), &session)?)
}

/// A bump of one of two levels releases no token, so another party stays out.
fn nested_bump_releases_nothing(alloc: Global, one: PartyId, two: PartyId) -> Result<(), Fail> {
    let session = [
        (Call::Acquire(Want::Lock, Form::Block, one), Reply::Guard(1)),
        (Call::Acquire(Want::Lock, Form::Block, one), Reply::Guard(2)),
        (Call::Bump(one, 1), Reply::Done),
        (Call::Spent, Reply::Count(0)),
        (Call::Get(two, 1, Add(0)), Reply::Refused(Fault::Foreign)),
        (Call::Acquire(Want::Lock, Form::Try, two), Reply::NoGuard),
        (
            Call::Acquire(Want::Lock, Form::Block, two),
            Reply::Refused(Fault::WouldWait),
        ),
        (Call::IsOwnedBy(one), Reply::Bool(true)),
        (Call::IsOwnedBy(two), Reply::Bool(false)),
        (
            Call::Change(one, 1, Add(9)),
            Reply::Refused(Fault::WrongKind),
        ),
    ];
    Ok(check(alloc, DeskMaker::Reentrant(4, 4, 5), &session)?)
}

#[test]
fn spent_is_give_backs(rt: HostRuntime) -> Result<(), Fail> {
    let (one, two) = two_parties()?;
    last_level_releases(rt.alloc(), one)?;
    nested_bump_releases_nothing(rt.alloc(), one, two)
}
