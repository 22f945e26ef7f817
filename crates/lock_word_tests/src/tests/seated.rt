//! The answers of a seated lock, call by call.
ghost use Rattle.std.specs.Prelude.{◌≡◌};

use crate::callers::{
    loaded_alone, loaded_beside_readers, loaded_under_own_bar, refused_beside_readers,
};
use crate::tests::{BAR, UPGRADER, WRITER};
use SeatAnswer::{Count, Tried, Word};
use SeatCall::{Attempt, Load, LoadBesideReaders, RefuseBesideReaders, Take};
use Who::{A, B};
use lock_modes::Mode::{self, Exclusive, Shared, Upgradable};
use lock_test_support::answer::equal;
use lock_word::seated::Attempt::{Done, NotAdmitted};
use lock_word::seated::{self, Party, SeatedLock};
use lock_word::{Down, ExWant};
use std::alloc::Global;
use std::test::Fail;

/// One of two parties.
#[derive(Clone, Copy)]
enum Who {
    A,
    B,
}

/// A call of a party.
#[derive(Clone, Copy)]
enum SeatCall {
    Load,
    LoadAlone,
    LoadBesideReaders,
    LoadUnderOwnBar,
    RefuseBesideReaders,
    Attempt(ExWant),
    Take(Down),
}

/// What a call answers.
#[derive(Clone, Copy, PartialEq, Debug)]
enum SeatAnswer {
    Word(u64),
    Tried(seated::Attempt),
    /// How many holds or bars the party had of what the call takes or needs.
    Count(u64),
}

type Steps = &'static [(Who, SeatCall, SeatAnswer)];

const FRESH_LOADS: Steps = &[
    (A, Load, Word(0)),
    (B, Attempt(ExWant::Shared), Tried(Done)),
    (A, Load, Word(1)),
    (A, Attempt(ExWant::Exclusive), Tried(NotAdmitted(1))),
    (B, Take(Down::Shared), Count(1)),
    (A, Attempt(ExWant::Exclusive), Tried(Done)),
    (A, Load, Word(WRITER)),
    (B, Attempt(ExWant::Shared), Tried(NotAdmitted(WRITER))),
];

const MOVED_HOLDS: Steps = &[
    (A, Attempt(ExWant::Upgradable), Tried(Done)),
    (A, Load, Word(UPGRADER)),
    (B, Attempt(ExWant::Upgradable), Tried(NotAdmitted(UPGRADER))),
    (B, Attempt(ExWant::Shared), Tried(Done)),
    (
        A,
        Attempt(ExWant::Upgrade),
        Tried(NotAdmitted(UPGRADER + 1)),
    ),
    (B, Take(Down::Shared), Count(1)),
    (A, Attempt(ExWant::Upgrade), Tried(Done)),
    (A, Load, Word(WRITER)),
    (A, Take(Down::ToUpgradable), Count(1)),
    (A, Load, Word(UPGRADER)),
    (A, Take(Down::UpgradableToShared), Count(1)),
    (A, Load, Word(1)),
    (A, Attempt(ExWant::Exclusive), Tried(NotAdmitted(1))),
    (A, Take(Down::Shared), Count(1)),
    (A, Attempt(ExWant::Exclusive), Tried(Done)),
    (A, Take(Down::ToShared), Count(1)),
    (A, Load, Word(1)),
];

const WORDS_OF_HOLDERS: Steps = &[
    (A, Attempt(ExWant::Exclusive), Tried(Done)),
    (A, SeatCall::LoadAlone, Word(WRITER)),
    (A, Take(Down::ToShared), Count(1)),
    (A, LoadBesideReaders, Word(1)),
    (A, RefuseBesideReaders, Word(1)),
];

const BAR_BEFORE_OTHERS: Steps = &[
    (A, Attempt(ExWant::Announce), Tried(Done)),
    (B, Attempt(ExWant::Shared), Tried(NotAdmitted(BAR))),
    (B, Attempt(ExWant::Announce), Tried(NotAdmitted(BAR))),
    (A, Attempt(ExWant::Exclusive), Tried(Done)),
    (A, Load, Word(WRITER)),
    (A, Take(Down::Exclusive), Count(1)),
    (B, Attempt(ExWant::Shared), Tried(Done)),
];

/// The last two steps of `B` show that it has no bar.
const WITHDRAWAL: Steps = &[
    (B, Attempt(ExWant::Shared), Tried(Done)),
    (A, Attempt(ExWant::Announce), Tried(Done)),
    (B, Attempt(ExWant::Shared), Tried(NotAdmitted(BAR + 1))),
    (B, Take(Down::Withdraw), Count(0)),
    (A, SeatCall::LoadUnderOwnBar, Word(BAR + 1)),
    (A, Take(Down::Withdraw), Count(1)),
    (A, Attempt(ExWant::Shared), Tried(Done)),
    (B, Load, Word(2)),
];

/// Releases a hold of the mode, if the party has one. Returns how many it had.
fn released(lock: &SeatedLock, party: &mut Party, mode: Mode) -> u64
    requires { party.old.lock ≡ lock.now }
    ensures { party.new.lock ≡ lock.now }
{
    let count = party.holds(mode);
    if count > 0 {
        lock.release(party, mode);
    }
    count
}

/// Downgrades an exclusive hold to the mode, if the party has one. Returns how many it had.
fn downgraded(lock: &SeatedLock, party: &mut Party, is_upgradable: bool) -> u64
    requires { party.old.lock ≡ lock.now }
    ensures { party.new.lock ≡ lock.now }
{
    let count = party.holds(Exclusive);
    if count > 0 {
        if is_upgradable {
            lock.downgrade_to_upgradable(party);
        } else {
            lock.downgrade(party);
        }
    }
    count
}

/// Downgrades an upgradable hold, if the party has one. Returns how many it had.
fn upgradable_downgraded(lock: &SeatedLock, party: &mut Party) -> u64
    requires { party.old.lock ≡ lock.now }
    ensures { party.new.lock ≡ lock.now }
{
    let count = party.holds(Upgradable);
    if count > 0 {
        lock.downgrade_upgradable(party);
    }
    count
}

/// Clears the party's bar, if it is set. Returns how many there were.
fn withdrawn(lock: &SeatedLock, party: &mut Party) -> u64
    requires { party.old.lock ≡ lock.now }
    ensures { party.new.lock ≡ lock.now }
{
    if !party.announced() {
        return 0;
    }
    lock.withdraw(party);
    1
}

fn taken(lock: &SeatedLock, party: &mut Party, down: Down) -> u64
    requires { party.old.lock ≡ lock.now }
    ensures { party.new.lock ≡ lock.now }
{
    match down {
        Down::Shared => released(lock, party, Shared),
        Down::Exclusive => released(lock, party, Exclusive),
        Down::Upgradable => released(lock, party, Upgradable),
        Down::ToShared => downgraded(lock, party, false),
        Down::ToUpgradable => downgraded(lock, party, true),
        Down::UpgradableToShared => upgradable_downgraded(lock, party),
        Down::Withdraw => withdrawn(lock, party),
    }
}

/// Makes an attempt. A party without an upgradable hold makes no upgrade.
fn attempted(lock: &SeatedLock, party: &mut Party, want: ExWant) -> SeatAnswer
    requires { party.old.lock ≡ lock.now }
    ensures { party.new.lock ≡ lock.now }
{
    Tried(match want {
        ExWant::Shared => lock.attempt(party, ExWant::Shared),
        ExWant::Exclusive => lock.attempt(party, ExWant::Exclusive),
        ExWant::Upgradable => lock.attempt(party, ExWant::Upgradable),
        ExWant::Announce => lock.attempt(party, ExWant::Announce),
        ExWant::Upgrade => {
            if party.holds(Upgradable) == 0 {
                return Count(0);
            }
            lock.attempt(party, ExWant::Upgrade)
        }
    })
}

/// Calls a function that proves what the party loads, if the party holds or announced what that needs.
fn proved(lock: &SeatedLock, party: &mut Party, call: SeatCall) -> SeatAnswer
    requires { party.old.lock ≡ lock.now }
    ensures { party.new.lock ≡ lock.now }
{
    match call {
        SeatCall::LoadAlone if party.holds(Exclusive) > 0 => Word(loaded_alone(lock, party)),
        LoadBesideReaders if party.holds(Shared) > 0 => Word(loaded_beside_readers(lock, party)),
        RefuseBesideReaders if party.holds(Shared) > 0 => {
            Word(refused_beside_readers(lock, party))
        }
        SeatCall::LoadUnderOwnBar if party.announced() => Word(loaded_under_own_bar(lock, party)),
        _ => Count(0),
    }
}

fn answered(lock: &SeatedLock, party: &mut Party, call: SeatCall) -> SeatAnswer
    requires { party.old.lock ≡ lock.now }
    ensures { party.new.lock ≡ lock.now }
{
    match call {
        Load => Word(lock.load(party)),
        Attempt(want) => attempted(lock, party, want),
        Take(down) => Count(taken(lock, party, down)),
        other => proved(lock, party, other),
    }
}

/// Makes the steps of two parties, which are `A` and `B`.
fn check_steps(lock: &SeatedLock, mut a: Party, mut b: Party, steps: Steps) -> Result<(), Fail>
    requires first { a.lock ≡ lock.now }
    requires second { b.lock ≡ lock.now }
{
    for (row, (who, call, wanted)) in steps.iter().enumerate() {
        let answer = match who {
            A => answered(lock, &mut a, *call),
            B => answered(lock, &mut b, *call),
        };
        equal((row, answer), (row, *wanted))?;
    }
    Ok(())
}

/// Makes the steps on a new lock of two readers.
fn check(alloc: Global, steps: Steps) -> Result<(), Fail> {
    let (lock, party) = SeatedLock::new(alloc, 2)?;
    let (a, b) = lock.split(party);
    check_steps(&lock, a, b, steps)
}

#[test]
fn load_is_fresh(rt: HostRuntime) -> Result<(), Fail> {
    check(rt.alloc(), FRESH_LOADS)
}

#[test]
fn upgradable_holds_move(rt: HostRuntime) -> Result<(), Fail> {
    check(rt.alloc(), MOVED_HOLDS)
}

#[test]
fn holders_are_told_the_word(rt: HostRuntime) -> Result<(), Fail> {
    check(rt.alloc(), WORDS_OF_HOLDERS)
}

#[test]
fn a_bar_keeps_others_out(rt: HostRuntime) -> Result<(), Fail> {
    check(rt.alloc(), BAR_BEFORE_OTHERS)
}

#[test]
fn an_announced_party_withdraws(rt: HostRuntime) -> Result<(), Fail> {
    check(rt.alloc(), WITHDRAWAL)
}
