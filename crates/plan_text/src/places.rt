//! From the tree of a party to the places of its program.
use crate::names::Names;
use crate::tree::{Node, Tree};
use lock_modes::{Kind, LockStep, Mode, ModeStep};
use lock_plan::{Act, Block, PlanCall, PlanLock, ProgramPlace, Signal};
use plan_lines::{Condition, Counter, Join, LineAt, Look, Receipt, Said, WaitLine, Written};
use std::alloc::{AllocError, Global};

/// The places of a program, and the line of each.
#[derive(Drop)]
pub(crate) struct Places {
    pub(crate) places: Vec<ProgramPlace>,
    pub(crate) lines: Vec<LineAt>,
}

/// Where a label is.
#[derive(Clone, Copy)]
enum Target {
    /// At no line so far.
    Open,
    At(usize),
    /// Where another label is.
    With(usize),
}

/// A block that is open.
#[derive(Clone, Copy)]
struct Open {
    /// Where its next part begins, if it has another.
    next_part: Option<usize>,
    /// Where a party is after the block.
    past: usize,
    /// Where a party is at the end of the part: past the block, or at the begin of a loop.
    end: usize,
    kind: OpenKind,
}

/// What an open block is.
#[derive(Clone, Copy, PartialEq, Eq)]
enum OpenKind {
    Branch,
    Loop,
    /// The lines of a function.
    Call,
}

/// The elaboration of a party's tree. The places that it makes have labels in the place of the numbers of places.
#[derive(Drop)]
struct Elaboration<'a> {
    names: &'a Names,
    locks: &'a [PlanLock],
    looks: &'a [(Look, Join)],
    made: Places,
    labels: Vec<Target>,
    /// The label of the next place.
    here: usize,
    open: Vec<Open>,
    line: LineAt,
}

/// Makes the places of these lines, which fit each other.
pub(crate) fn places_of(alloc: Global, tree: &Tree, nodes: &[Node]) -> Result<Places, AllocError> {
    let last_ors = last_ors(alloc, nodes)?;
    let mut elaboration = Elaboration {
        names: &tree.names,
        locks: tree.locks.as_slice(),
        looks: tree.looks.as_slice(),
        made: Places {
            places: Vec::new(alloc),
            lines: Vec::new(alloc),
        },
        labels: Vec::new(alloc),
        here: 0,
        open: Vec::new(alloc),
        line: LineAt::alone(0),
    };
    match elaboration.add_all(nodes, last_ors.as_slice()) {
        Ok(()) => Ok(elaboration.resolved()),
        Err(fault) => Err(fault),
    }
}

/// Returns for each line whether it is the last `or` of its block.
fn last_ors(alloc: Global, nodes: &[Node]) -> Result<Vec<bool>, AllocError> {
    let mut last = vec![in alloc; false; nodes.len()]?;
    // For each open block its last `or` so far.
    let mut open: Vec<Option<usize>> = Vec::new(alloc);
    for (at, node) in nodes.iter().enumerate() {
        if begins(node.said) {
            open.push(None)?;
        } else if let Said::Or = node.said {
            if let Some(or) = open.last_mut() {
                *or = Some(at);
            }
        } else if let Said::End = node.said {
            if let Some(Some(or)) = open.pop() {
                if let Some(is_last) = last.get_mut(or) {
                    *is_last = true;
                }
            }
        }
    }
    Ok(last)
}

/// Returns whether a line begins a block.
fn begins(said: Said) -> bool {
    matches!(
        said,
        Said::Try(..)
            | Said::TryMove(..)
            | Said::Receipt(..)
            | Said::If(_)
            | Said::Until(_)
            | Said::Repeat
            | Said::Forever
            | Said::Either
            | Said::Pick(_, Written::Block)
            | Said::Invoke(..)
    )
}

impl Elaboration<'_> {
    /// Adds the places of all lines.
    fn add_all(&mut self, nodes: &[Node], last_ors: &[bool]) -> Result<(), AllocError> {
        self.here = self.label()?;
        for (at, node) in nodes.iter().enumerate() {
            self.line = node.line;
            self.add(node.said, last_ors.get(at).copied().unwrap_or(false))?;
        }
        Ok(())
    }

    /// Adds the places of a line.
    fn add(&mut self, said: Said, is_last_or: bool) -> Result<(), AllocError> {
        match said {
            Said::Try(is_rwlock, step, lock) => {
                let call = self.call(is_rwlock, step, lock);
                self.branch(Act::Try(call))
            }
            Said::TryMove(_, is_up, name) => self.try_move(is_up, name),
            Said::Receipt(how, channel, any) => self.begin_receipt(how, channel, any),
            Said::Assert(condition) => self.assert(condition),
            Said::Wait(wait) => self.wait(wait),
            Said::If(condition) => self.begin_if(condition),
            Said::Until(condition) => self.begin_until(condition),
            Said::Repeat => self.begin_repeat(),
            Said::Forever => self.begin_forever(),
            Said::Either | Said::Pick(_, Written::Block) => {
                self.branch(Act::Choose(Block::Either))
            }
            Said::Invoke(..) => self.begin_call(),
            Said::Or => self.or(is_last_or),
            Said::Else => self.part(),
            Said::End => self.end(),
            Said::Leave => self.leave(),
            Said::Return => self.leave_all(),
            _ => match self.act(said) {
                Some(act) => self.step(act),
                None => Ok(()),
            },
        }
    }

    /// Returns the act of a line that is one step, or `None` for a line without a step.
    fn act(&self, said: Said) -> Option<Act> {
        let signal = match said {
            Said::Call(is_rwlock, step, lock) => {
                return Some(Act::Call(self.call(is_rwlock, step, lock)));
            }
            Said::Move(_, true, name) => {
                Signal::Add(self.names.counter_row(name), self.counter(name).most)
            }
            Said::Move(_, false, name) => Signal::Take(self.names.counter_row(name)),
            Said::SetFlag(value, name) => self.set(name, usize::from(value)),
            Said::SetCounter(value, name) => self.set(name, value),
            Said::NotifyOne(condvar) => Signal::NotifyOne(self.condvar(condvar)),
            Said::NotifyAll(condvar) => Signal::NotifyAll(self.condvar(condvar)),
            Said::Start(party) => Signal::Start(self.party(party)),
            Said::Join(party) => Signal::Join(self.party(party)),
            _ => return None,
        };
        Some(Act::Signal(signal))
    }

    /// Adds a place with one place after it.
    fn step(&mut self, act: Act) -> Result<(), AllocError> {
        let next = self.label()?;
        self.place(act, next, next)
    }

    /// Adds a place, and goes on at its `next`.
    fn place(&mut self, act: Act, next: usize, other: usize) -> Result<(), AllocError> {
        let number = self.made.places.len();
        self.bind(self.here, Target::At(number));
        self.made.places.push(ProgramPlace { act, next, other })?;
        self.made.lines.push(self.line)?;
        self.here = next;
        Ok(())
    }

    /// Begins a block of two parts. The act's first way leads into the first part.
    fn branch(&mut self, act: Act) -> Result<(), AllocError> {
        let inside = self.label()?;
        let other = self.label()?;
        self.place(act, inside, other)?;
        self.open_branch(other)
    }

    /// Opens a block of which the second part begins at a label.
    fn open_branch(&mut self, other: usize) -> Result<(), AllocError> {
        let past = self.label()?;
        self.open.push(Open {
            next_part: Some(other),
            past,
            end: past,
            kind: OpenKind::Branch,
        })?;
        Ok(())
    }

    /// Begins a block of a move of a counter that is tried.
    fn try_move(&mut self, is_up: bool, name: usize) -> Result<(), AllocError> {
        let row = self.names.counter_row(name);
        self.branch(Act::Choose(if is_up {
            Block::TryAdd(row, self.counter(name).most)
        } else {
            Block::TryTake(row)
        }))
    }

    /// Begins a block of which the first part is for a true condition.
    fn begin_if(&mut self, condition: Condition) -> Result<(), AllocError> {
        let inside = self.label()?;
        let other = self.label()?;
        self.decide(condition, inside, other)?;
        self.here = inside;
        self.open_branch(other)
    }

    /// Adds the looks of a condition, of which a true one leads to the first label and a false one to the second.
    fn decide(&mut self, condition: Condition, yes: usize, no: usize) -> Result<(), AllocError> {
        let looks = condition.looks(self.looks);
        // Where the looks after the next `or` begin.
        let mut other = self.other_looks(looks, no)?;
        for (at, (look, join)) in looks.iter().enumerate() {
            let next = match *join {
                Join::And => self.label()?,
                Join::Or | Join::Last => yes,
            };
            self.look(*look, next, other)?;
            match *join {
                Join::And => self.here = next,
                Join::Or => {
                    self.here = other;
                    let rest = looks.get(at.saturating_add(1)..).unwrap_or(&[]);
                    other = self.other_looks(rest, no)?;
                }
                Join::Last => {}
            }
        }
        Ok(())
    }

    /// Returns where a party goes on after a false look: to the looks after the next `or`, if there is one.
    fn other_looks(&mut self, looks: &[(Look, Join)], no: usize) -> Result<usize, AllocError> {
        if looks.iter().any(|(_, join)| *join == Join::Or) {
            self.label()
        } else {
            Ok(no)
        }
    }

    /// Adds a look, which leads to the first label if it has its answer.
    fn look(&mut self, look: Look, yes: usize, no: usize) -> Result<(), AllocError> {
        let row = self.names.counter_row(look.name);
        let act = Act::Choose(Block::AtLeast(row, look.number.unwrap_or(1)));
        if look.value {
            self.place(act, yes, no)
        } else {
            self.place(act, no, yes)
        }
    }

    /// Adds an assertion for each look.
    fn assert(&mut self, condition: Condition) -> Result<(), AllocError> {
        for (look, _) in condition.looks(self.looks) {
            let row = self.names.counter_row(look.name);
            let number = look.number.unwrap_or(1);
            self.step(Act::Signal(Signal::AssertAtLeast(row, number, look.value)))?;
        }
        Ok(())
    }

    /// Returns what gives a counter a value.
    fn set(&self, name: usize, value: usize) -> Signal {
        let place = self.counter(name).place(value);
        Signal::Set(self.names.counter_row(name), place)
    }

    fn counter(&self, name: usize) -> Counter {
        match self.names.counter_of(name) {
            Some(counter) => counter,
            None => Counter::flag(false),
        }
    }

    /// Begins the lines of a function.
    fn begin_call(&mut self) -> Result<(), AllocError> {
        let past = self.label()?;
        self.open.push(Open {
            next_part: None,
            past,
            end: past,
            kind: OpenKind::Call,
        })?;
        Ok(())
    }

    /// Opens a loop that begins here, and returns where a party is after it.
    fn open_loop(&mut self) -> Result<usize, AllocError> {
        let past = self.label()?;
        self.open.push(Open {
            next_part: None,
            past,
            end: self.here,
            kind: OpenKind::Loop,
        })?;
        Ok(past)
    }

    /// Begins a loop that a party leaves by a choice.
    fn begin_repeat(&mut self) -> Result<(), AllocError> {
        let past = self.open_loop()?;
        let inside = self.label()?;
        self.place(Act::Choose(Block::Repeat), inside, past)
    }

    /// Begins a loop that a party leaves by a `leave` or a `return` alone.
    fn begin_forever(&mut self) -> Result<(), AllocError> {
        self.open_loop()?;
        self.step(Act::Choose(Block::Repeat))
    }

    /// Begins a loop that a party leaves where a condition is true.
    fn begin_until(&mut self, condition: Condition) -> Result<(), AllocError> {
        let past = self.open_loop()?;
        let inside = self.label()?;
        self.decide(condition, past, inside)?;
        self.here = inside;
        Ok(())
    }

    /// Begins a block that receives from a channel that may be closed. Its lines are for an item. A party without one gives the
    /// token back.
    fn begin_receipt(
        &mut self,
        how: Receipt,
        channel: usize,
        any: usize,
    ) -> Result<(), AllocError> {
        let past = match how {
            Receipt::While => self.open_loop()?,
            Receipt::Try | Receipt::If => self.label()?,
        };
        let (token, inside, closed) = (self.label()?, self.label()?, self.label()?);
        let (row, most) = (self.names.counter_row(any), self.counter(any).most);
        let item = self.names.counter_row(channel);
        match how {
            Receipt::Try => self.try_token(row, item, token, past)?,
            Receipt::If | Receipt::While => {
                self.place(Act::Signal(Signal::Take(row)), token, token)?;
            }
        }
        self.place(Act::Choose(Block::TryTake(item)), inside, closed)?;
        self.here = closed;
        self.place(Act::Signal(Signal::Add(row, most)), past, past)?;
        self.here = inside;
        match how {
            Receipt::While => Ok(()),
            Receipt::Try | Receipt::If => self.open_branch(past),
        }
    }

    /// Adds a try of a token, which leads to the first label with one, and to the second one if there is no item either. An item
    /// without a token is one that another party is about to send or to receive.
    fn try_token(
        &mut self,
        row: usize,
        item: usize,
        token: usize,
        past: usize,
    ) -> Result<(), AllocError> {
        let (again, look) = (self.here, self.label()?);
        self.place(Act::Choose(Block::TryTake(row)), token, look)?;
        self.here = look;
        self.place(Act::Choose(Block::AtLeast(item, 1)), again, past)?;
        self.here = token;
        Ok(())
    }

    /// Adds the places of a wait: the release of the mutex and the sleep, and then the call that acquires the mutex again.
    fn wait(&mut self, wait: WaitLine) -> Result<(), AllocError> {
        let condvar = self.condvar(wait.condvar);
        let unlock = self.mutex_call(ModeStep::Release(Mode::Exclusive), wait.mutex);
        let lock = self.mutex_call(ModeStep::Acquire(Mode::Exclusive), wait.mutex);
        if let Some(condition) = wait.until {
            self.begin_until(condition)?;
        }
        self.step(unlock)?;
        if !wait.is_timed {
            self.step(Act::Signal(Signal::Sleep(condvar)))?;
            self.step(lock)?;
        } else if wait.until.is_none() {
            self.step(Act::Choose(Block::TimedSleep(condvar)))?;
            self.step(lock)?;
        } else {
            self.branch(Act::Choose(Block::TimedSleep(condvar)))?;
            self.step(lock)?;
            self.part()?;
            self.step(lock)?;
            self.leave()?;
            self.end()?;
        }
        match wait.until {
            Some(_) => self.end(),
            None => Ok(()),
        }
    }

    /// Turns to the next part of the innermost block.
    fn part(&mut self) -> Result<(), AllocError> {
        let Some(block) = self.open.last_mut() else {
            return Ok(());
        };
        let (next_part, end) = (block.next_part.take(), block.end);
        self.bind(self.here, Target::With(end));
        self.here = match next_part {
            Some(label) => label,
            None => self.label()?,
        };
        Ok(())
    }

    /// Turns to the next part of an `either`. Before each part but the last, the party chooses again.
    fn or(&mut self, is_last: bool) -> Result<(), AllocError> {
        self.part()?;
        if is_last {
            return Ok(());
        }
        let inside = self.label()?;
        let other = self.label()?;
        self.place(Act::Choose(Block::Either), inside, other)?;
        if let Some(block) = self.open.last_mut() {
            block.next_part = Some(other);
        }
        Ok(())
    }

    /// Ends the innermost block.
    fn end(&mut self) -> Result<(), AllocError> {
        let Some(block) = self.open.pop() else {
            return Ok(());
        };
        self.bind(self.here, Target::With(block.end));
        if let Some(label) = block.next_part {
            self.bind(label, Target::With(block.past));
        }
        self.here = block.past;
        Ok(())
    }

    /// Leads past the innermost loop.
    fn leave(&mut self) -> Result<(), AllocError> {
        self.leave_block(OpenKind::Loop)
    }

    /// Leads past the innermost call, or to the end of the program. A label that is nowhere is there.
    fn leave_all(&mut self) -> Result<(), AllocError> {
        self.leave_block(OpenKind::Call)
    }

    /// Leads past the innermost block of this kind, if there is one.
    fn leave_block(&mut self, kind: OpenKind) -> Result<(), AllocError> {
        let past = self
            .open
            .iter()
            .rev()
            .find(|block| block.kind == kind)
            .map(|block| block.past);
        if let Some(past) = past {
            self.bind(self.here, Target::With(past));
        }
        self.here = self.label()?;
        Ok(())
    }

    /// Makes a label.
    fn label(&mut self) -> Result<usize, AllocError> {
        let label = self.labels.len();
        self.labels.push(Target::Open)?;
        Ok(label)
    }

    fn bind(&mut self, label: usize, target: Target) {
        if let Some(known) = self.labels.get_mut(label) {
            *known = target;
        }
    }

    /// Puts the numbers of places in the place of labels.
    fn resolved(self) -> Places {
        let Elaboration {
            mut made,
            labels,
            ..
        } = self;
        let end = made.places.len();
        for at in 0..end {
            if let Some(place) = made.places.get_mut(at) {
                place.next = place_of(labels.as_slice(), place.next, end);
                place.other = place_of(labels.as_slice(), place.other, end);
            }
        }
        made
    }

    /// Returns a call. Where its word is of another kind of lock, so is its step.
    fn call(&self, is_rwlock: bool, step: LockStep, name: usize) -> PlanCall {
        let lock = self.names.locks.get_index_of(&name).unwrap_or(0);
        let is_right = self.kind(lock).is_rwlock() == is_rwlock;
        PlanCall {
            lock,
            step: if is_right { step } else { no_step() },
        }
    }

    /// Returns a call of a wait. Where its lock is no mutex, no lock has its step.
    fn mutex_call(&self, step: ModeStep, name: usize) -> Act {
        let lock = self.names.locks.get_index_of(&name).unwrap_or(0);
        let is_mutex = self.kind(lock) == Kind::Mutex;
        Act::Call(PlanCall {
            lock,
            step: if is_mutex {
                LockStep::Modes(step)
            } else {
                no_step()
            },
        })
    }

    fn kind(&self, lock: usize) -> Kind {
        match self.locks.get(lock) {
            Some(lock) => lock.kind,
            None => Kind::Mutex,
        }
    }

    fn condvar(&self, name: usize) -> usize {
        self.names.condvars.get_index_of(&name).unwrap_or(0)
    }

    fn party(&self, name: usize) -> usize {
        self.names.parties.get_index_of(&name).unwrap_or(0)
    }
}

/// Returns the place of a label. One that is at no line is at the end.
fn place_of(labels: &[Target], label: usize, end: usize) -> usize {
    let mut label = label;
    for _hop in 0..labels.len() {
        match labels.get(label) {
            Some(Target::At(place)) => return *place,
            Some(Target::With(other)) => label = *other,
            Some(Target::Open) | None => return end,
        }
    }
    end
}

/// A step that no lock has.
fn no_step() -> LockStep {
    LockStep::Modes(ModeStep::Change(Mode::Exclusive, Mode::Exclusive))
}
