//! Each call that allocates, with an allocation refused, over a table and over a packed word.
use crate::tests::counted_state::CountedState;
use crate::tests::maker::DeskMaker;
use crate::tests::operations::Add;
use crate::tests::{CountedDesk, Wrong, replay, replay_over};
use lock_machine::{Call, Form, Reply, Want, Way};
use lock_modes::{Fault, PartyId, RawState};
use lock_states::table::TokenTable;
use lock_states::word::PackedWord;
use lock_test_support::answer::{equal, lacks_memory};
use lock_test_support::party;
use std::alloc::Global;
use std::rt::Env;
use std::test::Fail;

/// The session goes as expected over this raw state, or the maker lacks memory.
fn replayed_or_refused<R: RawState, E: Env>(
    rt: &E,
    alloc: Global,
    maker: DeskMaker,
    session: &[(Call<Add>, Reply<u64>)],
) -> Result<(), Fail> {
    match replay_over::<R, Add>(alloc, maker, session) {
        Err(Wrong::Unmade(fault)) => lacks_memory(rt, fault),
        others => Ok(others?),
    }
}

fn check_or_refuse<E: Env>(
    rt: &E,
    alloc: Global,
    maker: DeskMaker,
    session: &[(Call<Add>, Reply<u64>)],
) -> Result<(), Fail> {
    replayed_or_refused::<TokenTable, E>(rt, alloc, maker, session)?;
    replayed_or_refused::<PackedWord, E>(rt, alloc, maker, session)
}

#[test]
fn refused_memory_mutex(rt: HostRuntime) -> Result<(), Fail> {
    let one = party(1)?;
    let session = [
        (Call::Acquire(Want::Lock, Form::Block, one), Reply::Guard(1)),
        (Call::Get(one, 1, Add(0)), Reply::Answer(7)),
    ];
    check_or_refuse(&rt, rt.alloc(), DeskMaker::Mutex(1, 7), &session)
}

#[test]
fn refused_memory_rwlock(rt: HostRuntime) -> Result<(), Fail> {
    let one = party(1)?;
    let session = [
        (
            Call::Acquire(Want::UpgradableRead, Form::Block, one),
            Reply::Guard(1),
        ),
        (Call::Acquire(Want::Read, Form::Block, one), Reply::Guard(2)),
        (Call::Get(one, 2, Add(0)), Reply::Answer(7)),
    ];
    check_or_refuse(&rt, rt.alloc(), DeskMaker::RwLock(2, 2, 7), &session)
}

#[test]
fn refused_memory_reentrant(rt: HostRuntime) -> Result<(), Fail> {
    let one = party(1)?;
    let session = [
        (Call::Acquire(Want::Lock, Form::Block, one), Reply::Guard(1)),
        (Call::Acquire(Want::Lock, Form::Block, one), Reply::Guard(2)),
        (Call::Get(one, 1, Add(0)), Reply::Answer(7)),
    ];
    check_or_refuse(&rt, rt.alloc(), DeskMaker::Reentrant(2, 2, 7), &session)
}

/// A list of calls is made as a whole, or not at all if there is no memory.
fn ran_or_refused<R: RawState, E: Env>(
    rt: &E,
    alloc: Global,
    desk: &mut CountedDesk<R>,
    one: PartyId,
) -> Result<(), Fail> {
    let reader = Call::Acquire(Want::Read, Form::Block, one);
    replay::<R, Add>(desk, &[(reader, Reply::Guard(1))])?;
    let calls = [
        Call::Unlock(one, 1, Way::Plain),
        Call::Acquire(Want::Write, Form::Try, one),
        Call::Change(one, 2, Add(1)),
    ];
    let (spent, guard, value) = match desk.run(alloc, &calls) {
        Ok(replies) => {
            let wanted = [Reply::Done, Reply::Guard(2), Reply::Answer(8)];
            equal(replies.as_slice() == wanted.as_slice(), true)?;
            (1, 2, 8)
        }
        Err(fault) => {
            lacks_memory(rt, fault)?;
            (0, 1, 7)
        }
    };
    let left = [
        (Call::Spent, Reply::Count(spent)),
        (Call::Get(one, guard, Add(0)), Reply::Answer(value)),
    ];
    Ok(replay(desk, &left)?)
}

fn run_or_refused<R: RawState, E: Env>(rt: &E, alloc: Global, one: PartyId) -> Result<(), Fail> {
    match DeskMaker::RwLock(3, 2, 7).desk::<CountedState<R>>(alloc) {
        Ok(mut desk) => ran_or_refused(rt, alloc, &mut desk, one),
        Err(fault) => lacks_memory(rt, fault),
    }
}

#[test]
fn refused_memory_run(rt: HostRuntime) -> Result<(), Fail> {
    let one = party(1)?;
    run_or_refused::<TokenTable, HostRuntime>(&rt, rt.alloc(), one)?;
    run_or_refused::<PackedWord, HostRuntime>(&rt, rt.alloc(), one)
}
