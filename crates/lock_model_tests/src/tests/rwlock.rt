//! A desk that is a reader-writer lock.
use crate::tests::maker::DeskMaker;
use crate::tests::operations::{Add, CountedOp};
use crate::tests::{CountedDesk, Wrong, check, replay};
use lock_machine::{Call, Form, Reply, Want, Way};
use lock_modes::{Fault, PartyId, RawState};
use lock_states::table::TokenTable;
use lock_states::word::PackedWord;
use lock_test_support::{party, two_parties};
use std::alloc::Global;
use std::cell::Cell;
use std::test::Fail;

#[test]
fn refused_upgrades_apply_nothing(rt: HostRuntime) -> Result<(), Fail> {
    let (one, two) = two_parties()?;
    let applied = Cell::new(0u64);
    let op = CountedOp {
        op: Add(1),
        applied: &applied,
    };
    let session = [
        (
            Call::Acquire(Want::UpgradableRead, Form::Block, one),
            Reply::Guard(1),
        ),
        (Call::Acquire(Want::Read, Form::Block, two), Reply::Guard(2)),
        (Call::WithUpgraded(Form::Try, one, 1, op), Reply::NoGuard),
        (Call::WithUpgraded(Form::For, one, 1, op), Reply::NoGuard),
        (Call::WithUpgraded(Form::Until, one, 1, op), Reply::NoGuard),
        (
            Call::WithUpgraded(Form::Block, one, 1, op),
            Reply::Refused(Fault::WouldWait),
        ),
        (Call::Upgrade(Form::Try, one, 1), Reply::NoGuard),
        (Call::Upgrade(Form::For, one, 1), Reply::NoGuard),
        (Call::Upgrade(Form::Until, one, 1), Reply::NoGuard),
        (
            Call::Upgrade(Form::Block, one, 1),
            Reply::Refused(Fault::WouldWait),
        ),
        (
            Call::Acquire(Want::UpgradableRead, Form::Try, two),
            Reply::NoGuard,
        ),
        (Call::Get(one, 1, op), Reply::Answer(1)),
    ];
    check(rt.alloc(), DeskMaker::RwLock(4, 8, 1), &session)?;
    assert_eq!(rt; applied.get(), 0);
    Ok(())
}

/// Over each of the two raw states a call under an upgrade applies its operation once.
#[test]
fn upgrades_apply_once(rt: HostRuntime) -> Result<(), Fail> {
    let one = party(1)?;
    let applied = Cell::new(0u64);
    let op = CountedOp {
        op: Add(1),
        applied: &applied,
    };
    let session = [
        (
            Call::Acquire(Want::UpgradableRead, Form::Block, one),
            Reply::Guard(1),
        ),
        (Call::WithUpgraded(Form::Try, one, 1, op), Reply::Answer(2)),
        (Call::WithUpgraded(Form::For, one, 1, op), Reply::Answer(3)),
        (
            Call::WithUpgraded(Form::Until, one, 1, op),
            Reply::Answer(4),
        ),
        (
            Call::WithUpgraded(Form::Block, one, 1, op),
            Reply::Answer(5),
        ),
        (Call::Upgrade(Form::Block, one, 1), Reply::Done),
        (Call::IsLockedExclusive, Reply::Bool(true)),
        (Call::DowngradeToUpgradable(one, 1), Reply::Done),
        (Call::Upgrade(Form::For, one, 1), Reply::Done),
        (Call::Downgrade(one, 1), Reply::Done),
        (Call::Downgrade(one, 1), Reply::Refused(Fault::WrongMode)),
        (Call::Get(one, 1, op), Reply::Answer(5)),
        (Call::Unlock(one, 1, Way::Plain), Reply::Done),
        (Call::Spent, Reply::Count(1)),
        (Call::IsLocked, Reply::Bool(false)),
    ];
    check(rt.alloc(), DeskMaker::RwLock(4, 8, 1), &session)?;
    assert_eq!(rt; applied.get(), 8);
    Ok(())
}

/// A guard of each mode, one after another, is parked, bumped and unlocked.
fn spend_in_each_mode<R: RawState>(desk: &mut CountedDesk<R>, one: PartyId) -> Result<(), Wrong> {
    for (guard, want, form) in [
        (1, Want::Read, Form::For),
        (2, Want::Write, Form::Until),
        (3, Want::UpgradableRead, Form::For),
    ] {
        let session = [
            (Call::Acquire(want, form, one), Reply::Guard(guard)),
            (Call::Park(one, guard), Reply::Done),
            (Call::Resume(one, guard), Reply::Done),
            (Call::ParkFair(one, guard), Reply::Done),
            (Call::Resume(one, guard), Reply::Done),
            (Call::Bump(one, guard), Reply::Done),
            (Call::Unlock(one, guard, Way::Fair), Reply::Done),
            (Call::Spent, Reply::Count(4 * guard)),
            (Call::IsLocked, Reply::Bool(false)),
        ];
        replay::<R, Add>(desk, &session)?;
    }
    Ok(())
}

fn spend_all<R: RawState>(alloc: Global, one: PartyId) -> Result<(), Fail> {
    let mut desk: CountedDesk<R> = DeskMaker::RwLock(1, 1, 0).desk(alloc)?;
    Ok(spend_in_each_mode(&mut desk, one)?)
}

#[test]
fn spent_is_give_backs(rt: HostRuntime) -> Result<(), Fail> {
    let one = party(1)?;
    spend_all::<TokenTable>(rt.alloc(), one)?;
    spend_all::<PackedWord>(rt.alloc(), one)
}

#[test]
fn readers_up_to_the_limit(rt: HostRuntime) -> Result<(), Fail> {
    let (one, two) = two_parties()?;
    let session = [
        (
            Call::Acquire(Want::UpgradableRead, Form::Block, one),
            Reply::Guard(1),
        ),
        (
            Call::Acquire(Want::Read, Form::Block, two),
            Reply::Refused(Fault::WouldWait),
        ),
        (Call::Downgrade(one, 1), Reply::Done),
        (Call::Acquire(Want::Read, Form::Try, two), Reply::NoGuard),
        (Call::Unlock(one, 1, Way::Plain), Reply::Done),
        (Call::Acquire(Want::Read, Form::Try, two), Reply::Guard(2)),
        (Call::Acquire(Want::Read, Form::For, one), Reply::NoGuard),
        (Call::Acquire(Want::Read, Form::Until, one), Reply::NoGuard),
        (
            Call::Acquire(Want::Write, Form::Block, one),
            Reply::Refused(Fault::WouldWait),
        ),
        (Call::Acquire(Want::Write, Form::Try, one), Reply::NoGuard),
        (Call::Acquire(Want::Write, Form::For, one), Reply::NoGuard),
        (Call::Acquire(Want::Write, Form::Until, one), Reply::NoGuard),
        (
            Call::Acquire(Want::UpgradableRead, Form::For, one),
            Reply::NoGuard,
        ),
        (
            Call::Acquire(Want::UpgradableRead, Form::Until, one),
            Reply::NoGuard,
        ),
        (
            Call::Acquire(Want::Lock, Form::Block, one),
            Reply::Refused(Fault::WrongKind),
        ),
    ];
    check::<Add>(rt.alloc(), DeskMaker::RwLock(4, 1, 0), &session)?;
    Ok(())
}
