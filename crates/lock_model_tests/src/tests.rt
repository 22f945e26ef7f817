//! Sessions at a `Desk` over a table of tokens and over a packed word, and the table alone.
mod by_name;
mod counted_state;
mod full;
mod laws;
mod maker;
mod mutex;
mod numbers;
mod operations;
mod parts;
mod reentrant;
mod refused_memory;
mod rwlock;
mod table;

use crate::tests::by_name::by_name;
use crate::tests::counted_state::CountedState;
use crate::tests::maker::DeskMaker;
use lock_desk::Desk;
use lock_machine::{Call, Op, Reply};
use lock_modes::{Fault, RawState};
use lock_states::table::TokenTable;
use lock_states::word::PackedWord;
use std::alloc::Global;

type CountedDesk<R> = Desk<CountedState<R>, u64>;

/// How a session went wrong.
#[derive(Clone, Copy, PartialEq, Eq, Debug)]
enum Wrong {
    /// No desk was made, for this fault.
    Unmade(Fault),
    /// This reply is not the expected one.
    Reply(Reply<u64>),
    /// This many tokens of the raw state were released, and the desk counts another number.
    GivenBack(u64),
}

/// Makes the calls of a session, each with its expected reply.
fn make_calls<R: RawState, O: Op<u64, Answer = u64>>(
    desk: &mut Desk<R, u64>,
    session: &[(Call<O>, Reply<u64>)],
) -> Result<(), Wrong> {
    for wanted in session {
        let reply = by_name(desk, &wanted.0);
        if reply != wanted.1 {
            return Err(Wrong::Reply(reply));
        }
    }
    Ok(())
}

/// Makes the calls of a session, and compares the tokens that the desk spent with those that its raw state saw released.
fn replay<R: RawState, O: Op<u64, Answer = u64>>(
    desk: &mut CountedDesk<R>,
    session: &[(Call<O>, Reply<u64>)],
) -> Result<(), Wrong> {
    make_calls(desk, session)?;
    let given_back = desk.raw().given_back();
    if given_back == desk.spent() {
        Ok(())
    } else {
        Err(Wrong::GivenBack(given_back))
    }
}

/// `replay`, on a new desk over this raw state.
fn replay_over<R: RawState, O: Op<u64, Answer = u64>>(
    alloc: Global,
    maker: DeskMaker,
    session: &[(Call<O>, Reply<u64>)],
) -> Result<(), Wrong> {
    match maker.desk::<CountedState<R>>(alloc) {
        Ok(mut desk) => replay(&mut desk, session),
        Err(fault) => Err(Wrong::Unmade(fault)),
    }
}

/// The session goes as expected over a table and over a packed word.
fn check<O: Op<u64, Answer = u64>>(
    alloc: Global,
    maker: DeskMaker,
    session: &[(Call<O>, Reply<u64>)],
) -> Result<(), Wrong> {
    replay_over::<TokenTable, O>(alloc, maker, session)?;
    replay_over::<PackedWord, O>(alloc, maker, session)
}
