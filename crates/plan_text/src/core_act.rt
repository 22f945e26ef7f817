//! Reading the act of a place of a core.
use crate::names::Names;
use lock_modes::{LockStep, Mode, ModeStep};
use lock_plan::{Act, Block, PlanCall, Signal};
use plan_lines::{Counter, CounterKind, LineFault, NameKind, NameSet};
use script_text::unsigned;

/// Reads an act of these words.
pub(crate) fn act(names: &Names, fields: &[usize]) -> Result<Act, LineFault> {
    let [word, rest @ ..] = fields else {
        return Err(LineFault::NoPlace);
    };
    match names.words.text(*word) {
        "try" => tried(names, rest),
        "if" => match look_of(names, rest)? {
            (row, number, true) => Ok(Act::Choose(Block::AtLeast(row, number))),
            _ => Err(LineFault::NoPlace),
        },
        "assert" => {
            let (row, number, value) = look_of(names, rest)?;
            Ok(Act::Signal(Signal::AssertAtLeast(row, number, value)))
        }
        word => match rest {
            [] => alone(word),
            [name] => match signal(names, word, *name)? {
                Some(signal) => Ok(Act::Signal(signal)),
                None => Ok(Act::Call(read_call(names, fields)?)),
            },
            [first, rest @ ..] => several(names, fields, (word, *first), rest),
        },
    }
}

/// Reads an act of one word.
fn alone(word: &str) -> Result<Act, LineFault> {
    match word {
        "repeat" => Ok(Act::Choose(Block::Repeat)),
        "either" => Ok(Act::Choose(Block::Either)),
        "idle" => Ok(Act::Signal(Signal::Idle(0))),
        _ => Err(LineFault::NoPlace),
    }
}

/// Reads an act of a word, a name and the words after it, which together are these fields.
fn several(
    names: &Names,
    fields: &[usize],
    begin: (&str, usize),
    rest: &[usize],
) -> Result<Act, LineFault> {
    match (begin, rest) {
        (("set", name), [number]) => Ok(Act::Signal(set_counter(names, name, *number)?)),
        (("sleep", condvar), [or, last])
            if names.words.is(*or, "or") && names.words.is(*last, "timeout") => {
            Ok(Act::Choose(Block::TimedSleep(condvar_of(names, condvar)?)))
        }
        _ => Ok(Act::Call(read_call(names, fields)?)),
    }
}

/// Reads a try of these words.
fn tried(names: &Names, fields: &[usize]) -> Result<Act, LineFault> {
    match fields {
        [word, counter] if names.words.is(*word, "add") => {
            let (row, counter) = counter_of(names, *counter)?;
            Ok(Act::Choose(Block::TryAdd(row, counter.most)))
        }
        [word, counter] if names.words.is(*word, "take") => {
            let (row, _) = counter_of(names, *counter)?;
            Ok(Act::Choose(Block::TryTake(row)))
        }
        call => Ok(Act::Try(read_call(names, call)?)),
    }
}

/// Reads a signal of a word and a name, or returns `None` for another word.
fn signal(names: &Names, word: &str, name: usize) -> Result<Option<Signal>, LineFault> {
    let signal = match word {
        "sleep" => Signal::Sleep(condvar_of(names, name)?),
        "notify_one" => Signal::NotifyOne(condvar_of(names, name)?),
        "notify_all" => Signal::NotifyAll(condvar_of(names, name)?),
        "start" => Signal::Start(party_of(names, name)?),
        "join" => Signal::Join(party_of(names, name)?),
        "set" => set_flag(names, true, name)?,
        "clear" => set_flag(names, false, name)?,
        "add" => {
            let (row, counter) = counter_of(names, name)?;
            Signal::Add(row, counter.most)
        }
        "take" => Signal::Take(counter_of(names, name)?.0),
        _ => return Ok(None),
    };
    Ok(Some(signal))
}

fn set_flag(names: &Names, value: bool, name: usize) -> Result<Signal, LineFault> {
    let (row, flag) = flag_of(names, name)?;
    Ok(Signal::Set(row, flag.place(usize::from(value))))
}

fn set_counter(names: &Names, name: usize, number: usize) -> Result<Signal, LineFault> {
    let (row, counter) = counter_of(names, name)?;
    let value = number_in(names, name, number, counter.most)?;
    Ok(Signal::Set(row, counter.place(value)))
}

/// A row, a number, and whether the row is to be at the number or above.
type RowLook = (usize, usize, bool);

/// Reads a look at a flag or a counter.
fn look_of(names: &Names, fields: &[usize]) -> Result<RowLook, LineFault> {
    match fields {
        [flag] => Ok((flag_of(names, *flag)?.0, 1, true)),
        [not, flag] if names.words.is(*not, "not") => Ok((flag_of(names, *flag)?.0, 1, false)),
        [name, how, number] => {
            let (row, counter) = counter_of(names, *name)?;
            let value = names.words.is(*how, ">=");
            if !value && !names.words.is(*how, "<") {
                return Err(LineFault::NoPlace);
            }
            let most = counter.most.saturating_add(1);
            Ok((row, number_in(names, *name, *number, most)?, value))
        }
        _ => Err(LineFault::NoPlace),
    }
}

/// Reads a number of at most `most`, for the counter with this name.
fn number_in(names: &Names, name: usize, field: usize, most: usize) -> Result<usize, LineFault> {
    match unsigned(names.words.text(field)).and_then(|number| usize::try_from(number).ok()) {
        None => Err(LineFault::NoPlace),
        Some(number) if number > most => Err(LineFault::TooHigh(name, most)),
        Some(number) => Ok(number),
    }
}

/// Returns the row of a flag, and the flag.
fn flag_of(names: &Names, name: usize) -> Result<(usize, Counter), LineFault> {
    match names.counter_of(name) {
        Some(flag) if flag.kind == CounterKind::Flag => Ok((names.counter_row(name), flag)),
        _ => Err(LineFault::Unknown(NameKind::Counter(CounterKind::Flag), name)),
    }
}

/// Returns the row of a counter that is no flag, and the counter.
fn counter_of(names: &Names, name: usize) -> Result<(usize, Counter), LineFault> {
    match names.counter_of(name) {
        Some(counter) if counter.kind != CounterKind::Flag => {
            Ok((names.counter_row(name), counter))
        }
        _ => Err(LineFault::Unknown(NameKind::Counter(CounterKind::Counter), name)),
    }
}

/// Reads a call: its word, its lock and the modes.
fn read_call(names: &Names, fields: &[usize]) -> Result<PlanCall, LineFault> {
    let [word, lock, modes @ ..] = fields else {
        return Err(LineFault::NoPlace);
    };
    let Some(step) = step(names, *word, modes) else {
        return Err(LineFault::NoPlace);
    };
    let lock = number(&names.locks, NameKind::Lock, *lock)?;
    Ok(PlanCall { lock, step })
}

fn step(names: &Names, word: usize, modes: &[usize]) -> Option<LockStep> {
    match (names.words.text(word), modes) {
        ("acquire", [of]) => Some(LockStep::Modes(ModeStep::Acquire(mode(names, *of)?))),
        ("release", [of]) => Some(LockStep::Modes(ModeStep::Release(mode(names, *of)?))),
        ("change", [from, to]) => Some(LockStep::Modes(ModeStep::Change(
            mode(names, *from)?,
            mode(names, *to)?,
        ))),
        ("announce", []) => Some(LockStep::Announce),
        ("withdraw", []) => Some(LockStep::Withdraw),
        _ => None,
    }
}

fn mode(names: &Names, word: usize) -> Option<Mode> {
    match names.words.text(word) {
        "shared" => Some(Mode::Shared),
        "exclusive" => Some(Mode::Exclusive),
        "upgradable" => Some(Mode::Upgradable),
        _ => None,
    }
}

fn condvar_of(names: &Names, name: usize) -> Result<usize, LineFault> {
    number(&names.condvars, NameKind::Condvar, name)
}

fn party_of(names: &Names, name: usize) -> Result<usize, LineFault> {
    number(&names.parties, NameKind::Party, name)
}

fn number(set: &NameSet, kind: NameKind, name: usize) -> Result<usize, LineFault> {
    match set.get_index_of(&name) {
        Some(number) => Ok(number),
        None => Err(LineFault::Unknown(kind, name)),
    }
}
