//! Texts and constants.
use lock_modes::{DEFAULT_READERS, Fault};
use lock_script::ReplayFault;
use std::alloc::Global;
use std::test::Fail;

const REPLAY_FAULTS: [(ReplayFault, &str); 5] = [
    (ReplayFault::BadLine(7), "bad line 7"),
    (ReplayFault::TooLong, "input too long"),
    (ReplayFault::OutOfMemory, "out of memory"),
    (ReplayFault::InputFailed, "input failed"),
    (ReplayFault::OutputFailed, "output failed"),
];

const FAULTS: [(Fault, &str); 18] = [
    (Fault::WouldWait, "1: the call would have to wait"),
    (Fault::UnknownGuard, "2: there is no such guard"),
    (Fault::Parked, "3: the guard is parked"),
    (Fault::NotParked, "4: the guard is not parked"),
    (Fault::Foreign, "5: the guard is another party's"),
    (Fault::WrongMode, "6: the guard's mode does not allow this"),
    (
        Fault::WrongKind,
        "7: this kind of lock does not have the call",
    ),
    (Fault::NoPlace, "8: there is no place for another guard"),
    (Fault::NumbersSpent, "9: the numbers are spent"),
    (
        Fault::FullCount,
        "10: the owner holds as many levels as there may be",
    ),
    (Fault::GuardsOut, "11: a guard is out"),
    (Fault::BadLimits, "12: a limit is out of its range"),
    (Fault::OutOfMemory, "13: out of memory"),
    (Fault::NoFocus, "14: the operation does not fit the value"),
    (Fault::NoLoad, "15: there is no open load"),
    (Fault::UnknownParty, "16: there is no such party"),
    (Fault::Barred, "17: a writer has announced itself"),
    (
        Fault::NotAnnounced,
        "18: the party has not announced itself",
    ),
];

/// A text is the wanted one.
fn check(text: &str, wanted: &str) -> Result<(), Fail> {
    if text == wanted {
        Ok(())
    } else {
        Err(Fail::new("another text"))
    }
}

fn check_replay_fault(alloc: Global, fault: ReplayFault, wanted: &str) -> Result<(), Fail> {
    let text = format!(in alloc; "{fault}")?;
    check(text.as_str(), wanted)
}

fn check_fault(alloc: Global, fault: Fault, wanted: &str) -> Result<(), Fail> {
    let number = fault.number();
    let text = format!(in alloc; "{number}: {fault}")?;
    check(text.as_str(), wanted)
}

/// A lock has 64 readers where none are asked for.
const _: () = prove!(DEFAULT_READERS == 64);

#[test]
fn faults_have_texts(rt: HostRuntime) -> Result<(), Fail> {
    for (fault, wanted) in REPLAY_FAULTS {
        check_replay_fault(rt.alloc(), fault, wanted)?;
    }
    for (fault, wanted) in FAULTS {
        check_fault(rt.alloc(), fault, wanted)?;
    }
    Ok(())
}
