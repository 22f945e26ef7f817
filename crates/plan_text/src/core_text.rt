//! The text of a core: what is searched, a line for each place.
use crate::core_plan::Core;
use crate::names::Names;
use itoa::Buffer;
use lock_modes::{Kind, LockStep, Mode, ModeStep};
use lock_plan::{Act, Block, PlanCall, PlanLock, ProgramPlace, Signal};
use plan_lines::{Counter, CounterKind, Origin};
use std::alloc::{AllocError, Global};

/// The width of a place's number, and of its number and act.
const NUMBER_WIDTH: usize = 4;

const ACT_WIDTH: usize = 40;

/// The width of a place up to the end of its ways.
const WAYS_WIDTH: usize = 54;

impl Core {
    /// Makes the text of the core. [`read_core`](crate::read_core) reads it.
    pub fn text(&self, alloc: Global) -> Result<String, AllocError> {
        let mut text = String::new(alloc);
        self.write_declared(&mut text)?;
        for party in 0..self.names.parties() {
            if !self.is_copy(party) {
                self.write_party(&mut text, party)?;
            }
        }
        Ok(text)
    }

    fn write_declared(&self, text: &mut String) -> Result<(), AllocError> {
        for (number, lock) in self.locks.iter().enumerate() {
            write_lock(text, self.names.lock(number), *lock)?;
        }
        for (number, counter) in self.names.counters.iter().enumerate() {
            let row = self.names.parties().saturating_add(number);
            write_counter(text, self.names.row(row), *counter)?;
        }
        for condvar in 0..self.names.condvars.len() {
            writeln!(text, "condvar {}", self.names.condvar(condvar))?;
        }
        Ok(())
    }

    /// Appends a party with its copies, and their places.
    fn write_party(&self, text: &mut String, party: usize) -> Result<(), AllocError> {
        text.push_str(if self.is_server(party) {
            "\nserver "
        } else {
            "\nparty "
        })?;
        text.push_str(self.names.party(party))?;
        for copy in party.saturating_add(1)..self.names.parties() {
            if !self.is_copy(copy) {
                break;
            }
            write!(text, " {}", self.names.party(copy))?;
        }
        text.push('\n')?;
        let places = self.programs.places(party);
        for (number, place) in places.iter().enumerate() {
            let origin = self.programs.origin(party, number);
            write_place(text, &self.names, number, *place, places.len(), origin)?;
        }
        Ok(())
    }
}

fn write_counter(text: &mut String, name: &str, counter: Counter) -> Result<(), AllocError> {
    let Counter { kind, most, first } = counter;
    write!(text, "{} {name}", kind.word())?;
    match kind {
        CounterKind::Flag if first == 0 => text.push('\n'),
        CounterKind::Flag => text.push_str(" true\n"),
        CounterKind::Counter => writeln!(text, " {most} = {first}"),
        CounterKind::Semaphore => writeln!(text, " {first} {most}"),
        CounterKind::Channel => writeln!(text, " {most}"),
    }
}

fn write_lock(text: &mut String, name: &str, lock: PlanLock) -> Result<(), AllocError> {
    match lock.kind {
        Kind::Mutex => write!(text, "mutex {name}")?,
        Kind::RwLock => write!(text, "rwlock {name} {}", lock.limit)?,
        Kind::Reentrant => write!(text, "reentrant {name} {}", lock.limit)?,
    }
    text.push_str(match (lock.bar, lock.fair) {
        (true, _) => " bar\n",
        (false, true) => " fair\n",
        (false, false) => "\n",
    })
}

/// Appends the line of a place of a program with so many places.
fn write_place(
    text: &mut String,
    names: &Names,
    number: usize,
    place: ProgramPlace,
    places: usize,
    origin: Origin,
) -> Result<(), AllocError> {
    let start = text.len();
    write_number(text, number)?;
    write_act(text, names, place.act)?;
    pad(text, start, ACT_WIDTH)?;
    write_ways(text, place, places)?;
    pad(text, start, WAYS_WIDTH)?;
    writeln!(text, " line {origin}")
}

/// Appends the number of a place, from 1.
fn write_number(text: &mut String, number: usize) -> Result<(), AllocError> {
    let mut digits = Buffer::new();
    let digits = digits.format(number.saturating_add(1) as u64);
    write_spaces(text, NUMBER_WIDTH.saturating_sub(digits.len()))?;
    write!(text, "{digits}  ")
}

/// Appends where a place of a program with so many places leads.
fn write_ways(text: &mut String, place: ProgramPlace, places: usize) -> Result<(), AllocError> {
    text.push_str(" -> ")?;
    write_way(text, place.next, places)?;
    if has_two_ways(place.act) {
        text.push_str(" | ")?;
        write_way(text, place.other, places)?;
    }
    Ok(())
}

/// Returns whether a place with this act has two ways.
pub(crate) fn has_two_ways(act: Act) -> bool {
    matches!(act, Act::Try(_) | Act::Choose(_))
}

fn write_way(text: &mut String, place: usize, places: usize) -> Result<(), AllocError> {
    if place < places {
        write!(text, "{}", place.saturating_add(1))
    } else {
        text.push_str("end")
    }
}

fn write_act(text: &mut String, names: &Names, act: Act) -> Result<(), AllocError> {
    match act {
        Act::Call(call) => write_call(text, names, call),
        Act::Try(call) => {
            text.push_str("try ")?;
            write_call(text, names, call)
        }
        Act::Choose(Block::Repeat) => text.push_str("repeat"),
        Act::Choose(Block::Either) => text.push_str("either"),
        Act::Choose(Block::AtLeast(row, number)) => {
            text.push_str("if ")?;
            write_look(text, names, (row, number), true)
        }
        Act::Choose(Block::TryAdd(row, _)) => write!(text, "try add {}", names.row(row)),
        Act::Choose(Block::TryTake(row)) => write!(text, "try take {}", names.row(row)),
        Act::Choose(Block::TimedSleep(condvar)) => {
            write!(text, "sleep {} or timeout", names.condvar(condvar))
        }
        Act::Signal(signal) => write_signal(text, names, signal),
    }
}

fn write_call(text: &mut String, names: &Names, call: PlanCall) -> Result<(), AllocError> {
    let lock = names.lock(call.lock);
    match call.step {
        LockStep::Modes(ModeStep::Acquire(mode)) => {
            write!(text, "acquire {lock} {}", mode_word(mode))
        }
        LockStep::Modes(ModeStep::Release(mode)) => {
            write!(text, "release {lock} {}", mode_word(mode))
        }
        LockStep::Modes(ModeStep::Change(from, to)) => {
            write!(text, "change {lock} {} {}", mode_word(from), mode_word(to))
        }
        LockStep::Announce => write!(text, "announce {lock}"),
        LockStep::Withdraw => write!(text, "withdraw {lock}"),
    }
}

fn mode_word(mode: Mode) -> &'static str {
    match mode {
        Mode::Shared => "shared",
        Mode::Exclusive => "exclusive",
        Mode::Upgradable => "upgradable",
    }
}

fn write_signal(text: &mut String, names: &Names, signal: Signal) -> Result<(), AllocError> {
    match signal {
        Signal::Idle(_) => text.push_str("idle"),
        Signal::Sleep(condvar) => write!(text, "sleep {}", names.condvar(condvar)),
        Signal::Start(row) => write!(text, "start {}", names.row(row)),
        Signal::Add(row, _) => write!(text, "add {}", names.row(row)),
        Signal::Take(row) => write!(text, "take {}", names.row(row)),
        Signal::Set(row, place) => write_set(text, names, row, place),
        Signal::Join(row) => write!(text, "join {}", names.row(row)),
        Signal::AssertAtLeast(row, number, value) => {
            text.push_str("assert ")?;
            write_look(text, names, (row, number), value)
        }
        Signal::NotifyOne(condvar) => write!(text, "notify_one {}", names.condvar(condvar)),
        Signal::NotifyAll(condvar) => write!(text, "notify_all {}", names.condvar(condvar)),
    }
}

/// Appends the word that moves a counter to the place, its name, and the value if it is no flag.
fn write_set(text: &mut String, names: &Names, row: usize, place: usize) -> Result<(), AllocError> {
    let (name, value) = (names.row(row), names.value(row, place));
    match (names.is_flag(row), value) {
        (true, 0) => write!(text, "clear {name}"),
        (true, _) => write!(text, "set {name}"),
        (false, value) => write!(text, "set {name} {value}"),
    }
}

/// Appends a look at a row: whether it is to be at this number or above, or not.
pub fn write_look(
    text: &mut String,
    names: &Names,
    look: (usize, usize),
    value: bool,
) -> Result<(), AllocError> {
    let (row, number) = look;
    let name = names.row(row);
    match (names.is_flag(row), value) {
        (true, true) => text.push_str(name),
        (true, false) => write!(text, "not {name}"),
        (false, true) => write!(text, "{name} >= {number}"),
        (false, false) => write!(text, "{name} < {number}"),
    }
}

/// Appends spaces until so many bytes come after this place.
fn pad(text: &mut String, start: usize, width: usize) -> Result<(), AllocError> {
    let written = text.len().saturating_sub(start);
    write_spaces(text, width.saturating_sub(written))
}

fn write_spaces(text: &mut String, count: usize) -> Result<(), AllocError> {
    for _space in 0..count {
        text.push(' ')?;
    }
    Ok(())
}
