//! A `Desk` lends its value, or a part of it, to closures. Each test runs over a table and over a packed word.
use lock_desk::Desk;
use lock_modes::{Fault, PartyId, RawState};
use lock_parts::{TryProject, TryView};
use lock_states::table::TokenTable;
use lock_states::word::PackedWord;
use lock_test_support::answer::equal;
use lock_test_support::party;
use lock_test_support::project::{Item0, Item1, NthItem};
use std::alloc::Global;
use std::mem;
use std::test::Fail;

type PairDesk<R> = Desk<R, (u64, u64)>;

/// A call, its answer, and the answer that is wanted.
type Row = (&'static str, Result<u64, Fault>, Result<u64, Fault>);

fn check(rows: &[Row]) -> Result<(), Fail> {
    for (call, answer, wanted) in rows {
        equal((*call, *answer), (*call, *wanted))?;
    }
    Ok(())
}

/// The part that `read_part` lends.
fn item<R: RawState, P: TryView<(u64, u64), Part = u64>>(
    desk: &PairDesk<R>,
    one: PartyId,
    part: &P,
) -> Result<u64, Fault> {
    desk.read_part(one, 1, part, |item| *item)
}

/// The part that `write_part` lends, which the closure replaces.
fn replaced<R: RawState, P: TryProject<(u64, u64), Part = u64>>(
    desk: &mut PairDesk<R>,
    one: PartyId,
    part: &P,
    new: u64,
) -> Result<u64, Fault> {
    desk.write_part(one, 1, part, |item| mem::replace(item, new))
}

/// The first item of the pair that `with` lends.
fn first<R: RawState>(desk: &PairDesk<R>, one: PartyId) -> Result<u64, Fault> {
    desk.with(one, 1, |pair| pair.0)
}

/// The second item of the pair that `with_mut` lends, which the closure replaces.
fn replaced_pair<R: RawState>(desk: &mut PairDesk<R>, one: PartyId) -> Result<u64, Fault> {
    desk.with_mut(one, 1, |pair| mem::replace(pair, (3, 4)).1)
}

/// What a shared guard of `(1, 2)` lends.
fn read_by_one<R: RawState>(desk: &mut PairDesk<R>, one: PartyId) -> [Row; 5] {
    [
        ("read", desk.read(one), Ok(1)),
        ("with", first(desk, one), Ok(1)),
        ("read_part", item(desk, one, &Item1), Ok(2)),
        (
            "read_part of a third item",
            item(desk, one, &NthItem(2)),
            Err(Fault::NoFocus),
        ),
        (
            "write_part by a reader",
            replaced(desk, one, &NthItem(2), 0),
            Err(Fault::WrongMode),
        ),
    ]
}

/// What an exclusive guard of `(1, 2)` lends, which leaves `(9, 4)`.
fn write_by_one<R: RawState>(desk: &mut PairDesk<R>, one: PartyId) -> [Row; 5] {
    [
        ("lock", desk.lock(one), Ok(1)),
        ("with_mut", replaced_pair(desk, one), Ok(2)),
        ("write_part", replaced(desk, one, &Item0, 9), Ok(3)),
        (
            "write_part of a third item",
            replaced(desk, one, &NthItem(2), 0),
            Err(Fault::NoFocus),
        ),
        ("park", desk.park(one, 1).map(|()| 0), Ok(0)),
    ]
}

/// What `get_mut` lends of `(9, 4)` once the parked guard is abandoned.
fn write_alone<R: RawState>(desk: &mut PairDesk<R>, one: PartyId) -> [Row; 2] {
    [
        ("abandon", desk.abandon(one, 1).map(|()| 0), Ok(0)),
        (
            "get_mut",
            desk.get_mut().map(|pair| mem::replace(&mut pair.1, 5)),
            Ok(4),
        ),
    ]
}

/// The desk that `into_inner` returns, since a guard is parked.
fn refused_into_inner<R: RawState>(desk: PairDesk<R>) -> Result<PairDesk<R>, Fail> {
    match desk.into_inner() {
        Ok(pair) => Err(Fail::from(("into_inner with a guard out", pair))),
        Err((fault, desk)) => {
            equal(("into_inner", fault), ("into_inner", Fault::GuardsOut))?;
            Ok(desk)
        }
    }
}

fn lends<R: RawState>(alloc: Global) -> Result<(), Fail> {
    let one = party(1)?;
    let mut shared: PairDesk<R> = Desk::rwlock(alloc, 4, 8, (1, 2))?;
    check(&read_by_one(&mut shared, one))?;
    let mut exclusive: PairDesk<R> = Desk::mutex(alloc, 1, (1, 2))?;
    check(&write_by_one(&mut exclusive, one))?;
    let mut exclusive = refused_into_inner(exclusive)?;
    check(&write_alone(&mut exclusive, one))?;
    let left = exclusive.into_inner().map_err(|(fault, _)| fault)?;
    equal(("into_inner", left), ("into_inner", (9, 5)))
}

#[test]
fn a_desk_lends_its_value(rt: HostRuntime) -> Result<(), Fail> {
    lends::<TokenTable>(rt.alloc())?;
    lends::<PackedWord>(rt.alloc())
}
