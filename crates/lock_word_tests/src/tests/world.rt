//! Interleavings, each as one list of steps with the expected outcomes.
use crate::tests::{BAR, UPGRADER, WRITER};
use Number::{Bars, Fails, Readers, Wins, Word};
use lock_modes::{Fault, Mode};
use lock_states::world::World;
use lock_test_support::answer::equal;
use lock_word::AtomicStep::{Exchange, Load, Take};
use lock_word::Outcome::{Changed, Done, Loaded, NotAdmitted, Refused};
use lock_word::{AtomicStep, Down, ExWant, Outcome};
use std::alloc::Global;
use std::test::Fail;

/// A number of a world, or of a party in it.
#[derive(Clone, Copy)]
enum Number {
    Word,
    Wins(u64),
    Fails(u64),
    Readers(u64),
    /// 1 if the party has announced itself, else 0.
    Bars(u64),
}

/// The limits of a world, steps from a new one with their outcomes, and numbers after them.
struct Case {
    parties: u64,
    readers: u64,
    steps: &'static [(AtomicStep, Outcome)],
    numbers: &'static [(Number, Result<u64, Fault>)],
}

fn number_of(world: &World, number: Number) -> Result<u64, Fault> {
    match number {
        Word => Ok(world.word()),
        Wins(party) => world.wins(party),
        Fails(party) => world.fails(party),
        Readers(party) => world.holds(party, Mode::Shared),
        Bars(party) => world
            .announced(party)
            .map(|is_announced| is_announced as u64),
    }
}

/// Makes the steps, and checks their outcomes.
fn check_steps(alloc: Global, world: &mut World, case: &Case) -> Result<(), Fail> {
    let (mut steps, mut outcomes) = (Vec::new(alloc), Vec::new(alloc));
    for (step, outcome) in case.steps {
        steps.push(*step)?;
        outcomes.push(*outcome)?;
    }
    equal(world.run(alloc, steps.as_slice())?, outcomes)
}

fn check(alloc: Global, case: &Case) -> Result<(), Fail> {
    let mut world = World::new(alloc, case.parties, case.readers)?;
    check_steps(alloc, &mut world, case)?;
    for (row, (asked, wanted)) in case.numbers.iter().enumerate() {
        equal((row, number_of(&world, *asked)), (row, *wanted))?;
    }
    Ok(())
}

const LOST_EXCHANGE: Case = Case {
    parties: 2,
    readers: 3,
    steps: &[
        (Load(1), Loaded(0)),
        (Load(2), Loaded(0)),
        (Exchange(1, ExWant::Shared), Done),
        (Exchange(2, ExWant::Shared), Changed),
        (Load(2), Loaded(1)),
        (Exchange(2, ExWant::Shared), Done),
    ],
    numbers: &[(Word, Ok(2)), (Fails(2), Ok(1)), (Wins(1), Ok(1))],
};

#[test]
fn exchange_loses_to_another(rt: HostRuntime) -> Result<(), Fail> {
    check(rt.alloc(), &LOST_EXCHANGE)
}

const SAME_WORD: Case = Case {
    parties: 3,
    readers: 3,
    steps: &[
        (Load(1), Loaded(0)),
        (Exchange(1, ExWant::Shared), Done),
        (Load(3), Loaded(1)),
        (Load(2), Loaded(1)),
        (Exchange(2, ExWant::Shared), Done),
        (Take(2, Down::Shared), Done),
        (Exchange(3, ExWant::Shared), Done),
    ],
    numbers: &[
        (Word, Ok(2)),
        (Fails(3), Ok(0)),
        (Wins(2), Ok(2)),
        (Readers(1), Ok(1)),
        (Readers(2), Ok(0)),
    ],
};

#[test]
fn word_that_came_back_is_the_same(rt: HostRuntime) -> Result<(), Fail> {
    check(rt.alloc(), &SAME_WORD)
}

const TWO_FAILS: Case = Case {
    parties: 2,
    readers: 3,
    steps: &[
        (Load(1), Loaded(0)),
        (Load(2), Loaded(0)),
        (Exchange(2, ExWant::Shared), Done),
        (Exchange(1, ExWant::Shared), Changed),
        (Load(1), Loaded(1)),
        (Take(2, Down::Shared), Done),
        (Exchange(1, ExWant::Shared), Changed),
    ],
    numbers: &[(Fails(1), Ok(2)), (Wins(2), Ok(2)), (Word, Ok(0))],
};

#[test]
fn fails_are_as_many_as_the_wins_of_others(rt: HostRuntime) -> Result<(), Fail> {
    check(rt.alloc(), &TWO_FAILS)
}

const REFUSALS: Case = Case {
    parties: 1,
    readers: 1,
    steps: &[
        (Exchange(1, ExWant::Shared), Refused(Fault::NoLoad)),
        (Take(1, Down::Shared), Refused(Fault::WrongMode)),
        (Load(2), Refused(Fault::UnknownParty)),
        (Load(1), Loaded(0)),
        (Exchange(1, ExWant::Exclusive), Done),
        (Take(1, Down::ToUpgradable), Done),
        (Load(1), Loaded(UPGRADER)),
        (Exchange(1, ExWant::Upgrade), Done),
        (Take(1, Down::Shared), Refused(Fault::WrongMode)),
        (Take(1, Down::Exclusive), Done),
    ],
    numbers: &[(Word, Ok(0))],
};

#[test]
fn one_party_and_each_refusal(rt: HostRuntime) -> Result<(), Fail> {
    check(rt.alloc(), &REFUSALS)
}

const UPGRADABLE_READER: Case = Case {
    parties: 2,
    readers: 1,
    steps: &[
        (Load(1), Loaded(0)),
        (Exchange(1, ExWant::Upgradable), Done),
        (Load(2), Loaded(UPGRADER)),
        (Exchange(2, ExWant::Shared), NotAdmitted),
        (Exchange(2, ExWant::Shared), Refused(Fault::NoLoad)),
        (Take(1, Down::UpgradableToShared), Done),
        (Load(2), Loaded(1)),
        (Exchange(2, ExWant::Exclusive), NotAdmitted),
    ],
    numbers: &[(Word, Ok(1))],
};

#[test]
fn upgradable_token_is_a_reader(rt: HostRuntime) -> Result<(), Fail> {
    check(rt.alloc(), &UPGRADABLE_READER)
}

const BAR_BEFORE_OTHERS: Case = Case {
    parties: 2,
    readers: 3,
    steps: &[
        (Load(1), Loaded(0)),
        (Exchange(1, ExWant::Shared), Done),
        (Load(2), Loaded(1)),
        (Exchange(2, ExWant::Announce), Done),
        (Load(1), Loaded(BAR + 1)),
        (Exchange(1, ExWant::Shared), NotAdmitted),
        (Exchange(1, ExWant::Announce), Refused(Fault::NoLoad)),
        (Take(1, Down::Withdraw), Refused(Fault::WrongMode)),
        (Take(1, Down::Shared), Done),
        (Load(1), Loaded(BAR)),
        (Exchange(1, ExWant::Exclusive), NotAdmitted),
        (Load(2), Loaded(BAR)),
        (Exchange(2, ExWant::Exclusive), Done),
    ],
    numbers: &[
        (Bars(2), Ok(0)),
        (Word, Ok(WRITER)),
        (Bars(3), Err(Fault::UnknownParty)),
    ],
};

#[test]
fn a_bar_keeps_others_out(rt: HostRuntime) -> Result<(), Fail> {
    check(rt.alloc(), &BAR_BEFORE_OTHERS)
}

const BAR_BESIDE_AN_UPGRADE: Case = Case {
    parties: 2,
    readers: 1,
    steps: &[
        (Load(1), Loaded(0)),
        (Exchange(1, ExWant::Upgradable), Done),
        (Load(2), Loaded(UPGRADER)),
        (Exchange(2, ExWant::Announce), Done),
        (Load(1), Loaded(BAR + UPGRADER)),
        (Exchange(1, ExWant::Upgrade), Done),
    ],
    numbers: &[(Word, Ok(BAR + WRITER)), (Bars(2), Ok(1))],
};

/// The same steps, and the ends of both parties.
const BAR_AFTER_AN_UPGRADE: Case = Case {
    parties: 2,
    readers: 1,
    steps: &[
        (Load(1), Loaded(0)),
        (Exchange(1, ExWant::Upgradable), Done),
        (Load(2), Loaded(UPGRADER)),
        (Exchange(2, ExWant::Announce), Done),
        (Load(1), Loaded(BAR + UPGRADER)),
        (Exchange(1, ExWant::Upgrade), Done),
        (Take(1, Down::Exclusive), Done),
        (Take(2, Down::Withdraw), Done),
    ],
    numbers: &[(Word, Ok(0)), (Wins(2), Ok(2))],
};

#[test]
fn a_bar_stands_beside_an_upgrade(rt: HostRuntime) -> Result<(), Fail> {
    check(rt.alloc(), &BAR_BESIDE_AN_UPGRADE)?;
    check(rt.alloc(), &BAR_AFTER_AN_UPGRADE)
}
