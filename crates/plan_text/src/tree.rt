//! The tree of a text: what it declares, and the lines of its parties.
use crate::names::Names;
use crate::open_block::{OpenBlocks, OpenPart};
use indexmap::IndexSet;
use lock_plan::PlanLock;
use plan_lines::{
    Condition, CounterKind, Form, Line, LineAt, LineFault, LockLine, Looks, NameKind, NameSet,
    Origins, Parties, Receipt, Refusal, Role, Said, WaitLine, Written,
};
use std::alloc::{AllocError, Global};

/// A line of a party, and what it says.
#[derive(Clone, Copy)]
pub(crate) struct Node {
    pub(crate) line: LineAt,
    pub(crate) said: Said,
}

/// The parties of one line, which have the same lines.
#[derive(Drop)]
pub(crate) struct Group {
    /// The first party, and how many there are.
    pub(crate) first: usize,
    pub(crate) count: usize,
    pub(crate) nodes: Vec<Node>,
}

/// The tree of the lines so far.
#[derive(Drop)]
pub(crate) struct Tree {
    pub(crate) names: Names,
    pub(crate) locks: Vec<PlanLock>,
    pub(crate) groups: Vec<Group>,
    /// The looks of all conditions.
    pub(crate) looks: Looks,
    pub(crate) origins: Origins,
    /// The names of the functions, and how many parameters each has.
    functions: NameSet,
    parameters: Vec<usize>,
    /// Whether each party is a server.
    pub(crate) servers: Vec<bool>,
    /// The names after `start` and `join`, each once, and the first line with each of them.
    pub(crate) mentions: NameSet,
    pub(crate) mention_lines: Vec<LineAt>,
    /// The names after `start`, the party whose line starts each of them, and that line.
    pub(crate) started: NameSet,
    pub(crate) starters: Vec<usize>,
    pub(crate) start_lines: Vec<LineAt>,
    open: OpenBlocks,
}

impl Tree {
    /// Makes the tree of no lines.
    pub(crate) fn new(alloc: Global, names: Names) -> Tree {
        Tree {
            names,
            locks: Vec::new(alloc),
            groups: Vec::new(alloc),
            looks: Vec::new(alloc),
            origins: Origins::new(alloc),
            functions: IndexSet::new(alloc),
            parameters: Vec::new(alloc),
            servers: Vec::new(alloc),
            mentions: IndexSet::new(alloc),
            mention_lines: Vec::new(alloc),
            started: IndexSet::new(alloc),
            starters: Vec::new(alloc),
            start_lines: Vec::new(alloc),
            open: OpenBlocks::new(alloc),
        }
    }

    /// Explains the end of the text if a block is open there, or if no line said anything.
    pub(crate) fn end_fault(&self, is_empty: bool) -> Option<LineFault> {
        match self.open.innermost() {
            Some((word, line)) => Some(LineFault::NoEnd(word, line)),
            None if is_empty => Some(LineFault::NothingSaid),
            None => None,
        }
    }

    /// Adds a line, of which the first word has this number and form.
    pub(crate) fn add(
        &mut self,
        alloc: Global,
        line: LineAt,
        word: usize,
        form: Form,
        said: Said,
    ) -> Result<(), Refusal> {
        match said {
            Said::Define(name, parameters) => {
                self.outside_blocks(word)?;
                self.define(line, form, name, parameters)
            }
            Said::End if self.open.has_function() => self.open.end(),
            Said::Lock(..) | Said::Counter(..) | Said::Condvar(_) => {
                self.outside_blocks(word)?;
                self.declare(said)
            }
            Said::Party(is_server, parties, name) => {
                self.outside_blocks(word)?;
                self.add_parties(alloc, is_server, parties, name)
            }
            _ => {
                let Some(group) = self.groups.last() else {
                    return Err(Refusal::Bad(LineFault::NoParty(word)));
                };
                let parties = (group.first, group.count);
                self.add_node(form, parties, Node { line, said })
            }
        }
    }

    /// Adds a function, and begins its lines.
    fn define(
        &mut self,
        line: LineAt,
        form: Form,
        name: usize,
        parameters: usize,
    ) -> Result<(), Refusal> {
        add_name(&mut self.functions, NameKind::Function, name)?;
        add(&mut self.parameters, parameters)?;
        self.open.begin(OpenPart::Function, form.0, line)
    }

    /// Adds a line to the parties of the last group: the first one, and how many there are.
    fn add_node(&mut self, form: Form, parties: (usize, usize), node: Node) -> Result<(), Refusal> {
        let (first, count) = parties;
        self.known_names(node.said)?;
        self.written_out(node.said)?;
        self.mention(node.line, first, count, node.said)?;
        self.turn_blocks(node.line, form, node.said)?;
        self.push(node)?;
        Ok(())
    }

    /// Returns whether a line starts a party.
    pub(crate) fn is_started(&self, party: usize) -> bool {
        match self.names.parties.get_index(party) {
            Some(name) => self.started.contains(name),
            None => false,
        }
    }

    /// Begins the lines of a party whose own line is bad.
    pub(crate) fn begin_unnamed(&mut self, alloc: Global) -> Result<(), AllocError> {
        self.open = OpenBlocks::new(alloc);
        self.groups.push(Group {
            first: 0,
            count: 1,
            nodes: Vec::new(alloc),
        })?;
        Ok(())
    }

    /// Turns to the blocks that are open after a bad line, by its form, if the line is bad for another reason than these blocks.
    pub(crate) fn turn_misread(
        &mut self,
        line: Line,
        form: Form,
        fault: LineFault,
    ) -> Result<(), AllocError> {
        let at = line.at;
        if matches!(
            fault,
            LineFault::Unfit(_) | LineFault::TooDeep | LineFault::NoParty(_)
        ) {
            return Ok(());
        }
        let turned = match form.2 {
            Role::Try | Role::If => self.open.begin(OpenPart::First, form.0, at),
            Role::Repeat | Role::While | Role::Forever => {
                self.open.begin(OpenPart::Loop, form.0, at)
            }
            Role::Either => self.open.begin(OpenPart::Either, form.0, at),
            Role::Define => self.open.begin(OpenPart::Function, form.0, at),
            Role::Pick if line.written == Written::Block => {
                self.open.begin(OpenPart::Either, form.0, at)
            }
            Role::Invoke if line.written == Written::Block => {
                self.open.begin(OpenPart::Call, form.0, at)
            }
            Role::Or => self.open.turn(OpenPart::Or),
            Role::Else => self.open.turn(OpenPart::Else),
            Role::End => self.open.end(),
            _ => Ok(()),
        };
        match turned {
            Err(Refusal::OutOfMemory) => Err(AllocError),
            _ => Ok(()),
        }
    }

    fn push(&mut self, node: Node) -> Result<(), AllocError> {
        if let Some(group) = self.groups.last_mut() {
            group.nodes.push(node)?;
        }
        Ok(())
    }

    /// Turns to the blocks that are open after a line of a function that no line calls. The line adds nothing else.
    pub(crate) fn turn_uncalled(
        &mut self,
        line: LineAt,
        form: Form,
        said: Said,
    ) -> Result<(), Refusal> {
        match (said, form.2) {
            // the lines of its function come where it is written out
            (Said::Invoke(..), _) => Ok(()),
            (Said::Unclosed(_), Role::If) => self.open.begin(OpenPart::First, form.0, line),
            (Said::Unclosed(_), Role::While) => self.open.begin(OpenPart::Loop, form.0, line),
            _ => self.turn_blocks(line, form, said),
        }
    }

    /// Refuses a line in a block.
    pub(crate) fn outside_blocks(&self, word: usize) -> Result<(), Refusal> {
        match self.open.innermost() {
            None => Ok(()),
            Some((begin, line)) => Err(Refusal::Bad(LineFault::InBlock(word, begin, line))),
        }
    }

    /// Adds a lock, a flag or a condition variable, unless its name is there.
    fn declare(&mut self, said: Said) -> Result<(), Refusal> {
        match said {
            Said::Lock(lock, name) => {
                add_name(&mut self.names.locks, NameKind::Lock, name)?;
                add(&mut self.locks, plan_lock(lock))?;
            }
            Said::Counter(counter, name) => {
                if !is_new(&mut self.names.counter_names, name)? {
                    let kind = self.names.counter_of(name).unwrap_or(counter).kind;
                    return Err(Refusal::Bad(LineFault::Taken(NameKind::Counter(kind), name)));
                }
                add(&mut self.names.counters, counter)?;
            }
            Said::Condvar(name) => {
                add_name(&mut self.names.condvars, NameKind::Condvar, name)?;
            }
            _ => {}
        }
        Ok(())
    }

    /// Adds the parties of a line, unless one of their names is there.
    fn add_parties(
        &mut self,
        alloc: Global,
        is_server: bool,
        parties: Parties,
        name: usize,
    ) -> Result<(), Refusal> {
        let first = self.names.parties.len();
        match parties {
            Parties::One => {
                add_name(&mut self.names.parties, NameKind::Party, name)?;
            }
            Parties::Any => {
                let any = self.names.words.any(alloc, name)?;
                self.add_copy(name, any)?;
            }
            Parties::Copies(count) => self.add_copies(alloc, name, count)?,
        }
        let count = self.names.parties.len().saturating_sub(first);
        for _party in 0..count {
            add(&mut self.servers, is_server)?;
        }
        let nodes = Vec::new(alloc);
        add(
            &mut self.groups,
            Group {
                first,
                count,
                nodes,
            },
        )?;
        Ok(())
    }

    /// Adds so many parties of the line with this name.
    fn add_copies(&mut self, alloc: Global, name: usize, count: u64) -> Result<(), Refusal> {
        let text = String::from_str(alloc, self.names.words.text(name))?;
        for copy in 0..count {
            let copied = self
                .names
                .words
                .copy(alloc, text.as_str(), copy.saturating_add(1))?;
            self.add_copy(name, copied)?;
        }
        Ok(())
    }

    /// Adds a party of a core with this name, unless the name is there.
    pub(crate) fn add_named(&mut self, name: usize, is_server: bool) -> Result<(), Refusal> {
        if !self.names.words.is_core_name(name) {
            return Err(Refusal::Bad(LineFault::NoName(name)));
        }
        add_name(&mut self.names.parties, NameKind::Party, name)?;
        add(&mut self.servers, is_server)?;
        Ok(())
    }

    /// Adds a party of the line with this name, unless its own name is there.
    fn add_copy(&mut self, name: usize, copied: usize) -> Result<(), Refusal> {
        if is_new(&mut self.names.parties, copied)? {
            Ok(())
        } else {
            Err(Refusal::Bad(LineFault::TakenCopy(name)))
        }
    }

    /// Refuses a line of a party with a name that nothing above has.
    fn known_names(&self, said: Said) -> Result<(), Refusal> {
        match said {
            Said::Call(_, _, lock) | Said::Try(_, _, lock) => self.known(NameKind::Lock, lock),
            Said::SetFlag(_, flag) => self.known_counter(CounterKind::Flag, flag),
            Said::Move(kind, _, name) | Said::TryMove(kind, _, name) => {
                self.known_counter(kind, name)
            }
            Said::SetCounter(value, name) => self.known_number(name, value),
            Said::Receipt(_, channel, any) => {
                self.known_counter(CounterKind::Channel, channel)?;
                self.known_counter(CounterKind::Counter, any)
            }
            Said::Unclosed(channel) => {
                self.known_counter(CounterKind::Channel, channel)?;
                Err(Refusal::Bad(LineFault::TooMuchRoom(channel)))
            }
            Said::TryOffer(channel) => {
                self.known_counter(CounterKind::Channel, channel)?;
                Err(Refusal::Bad(LineFault::NoTryOffer(channel)))
            }
            Said::Unlatched(is_latch, name) => Err(Refusal::Bad(LineFault::NoGate(is_latch, name))),
            Said::NotifyOne(condvar) | Said::NotifyAll(condvar) => {
                self.known(NameKind::Condvar, condvar)
            }
            Said::If(condition) | Said::Until(condition) | Said::Assert(condition) => {
                self.known_looks(condition)
            }
            Said::Invoke(name, _, _) => self.known(NameKind::Function, name),
            Said::Wait(wait) => {
                self.known(NameKind::Condvar, wait.condvar)?;
                self.known(NameKind::Lock, wait.mutex)?;
                match wait.until {
                    Some(condition) => self.known_looks(condition),
                    None => Ok(()),
                }
            }
            _ => Ok(()),
        }
    }

    fn known_looks(&self, condition: Condition) -> Result<(), Refusal> {
        for (look, _) in condition.looks(self.looks.as_slice()) {
            match look.number {
                None => self.known_counter(CounterKind::Flag, look.name)?,
                // Of an equal number, the second look is at the number after it.
                Some(number) if look.value => self.known_number(look.name, number)?,
                Some(number) => self.known_number(look.name, number.saturating_sub(1))?,
            }
        }
        Ok(())
    }

    /// Refuses a name that no counter of this kind has.
    fn known_counter(&self, kind: CounterKind, name: usize) -> Result<(), Refusal> {
        match self.names.counter_of(name) {
            Some(counter) if counter.kind == kind => Ok(()),
            _ => Err(Refusal::Bad(LineFault::Unknown(NameKind::Counter(kind), name))),
        }
    }

    /// Refuses a number that a counter never has, and a flag.
    fn known_number(&self, name: usize, number: usize) -> Result<(), Refusal> {
        match self.names.counter_of(name) {
            Some(counter) if counter.kind != CounterKind::Flag && number <= counter.most => Ok(()),
            Some(counter) if counter.kind != CounterKind::Flag => {
                Err(Refusal::Bad(LineFault::TooHigh(name, counter.most)))
            }
            _ => Err(Refusal::Bad(LineFault::Unknown(
                NameKind::Counter(CounterKind::Counter),
                name,
            ))),
        }
    }

    /// Refuses a call of a known function and a pick that are not written out.
    fn written_out(&self, said: Said) -> Result<(), Refusal> {
        match said {
            Said::Invoke(name, arguments, Written::No) => {
                let number = self.functions.get_index_of(&name).unwrap_or(0);
                let parameters = self.parameters.get(number).copied().unwrap_or(0);
                Err(Refusal::Bad(if parameters == arguments {
                    LineFault::NotAbove(name)
                } else {
                    LineFault::Arguments(name, parameters)
                }))
            }
            Said::Pick(row, Written::No) => Err(Refusal::Bad(LineFault::NoChoice(row))),
            _ => Ok(()),
        }
    }

    fn known(&self, kind: NameKind, name: usize) -> Result<(), Refusal> {
        let names = match kind {
            NameKind::Lock => &self.names.locks,
            NameKind::Counter(_) => &self.names.counter_names,
            NameKind::Condvar => &self.names.condvars,
            NameKind::Party => &self.names.parties,
            NameKind::Function => &self.functions,
        };
        if names.contains(&name) {
            Ok(())
        } else {
            Err(Refusal::Bad(LineFault::Unknown(kind, name)))
        }
    }

    /// Notes the name of a `start` or a `join`, in the lines of these parties.
    fn mention(
        &mut self,
        line: LineAt,
        first: usize,
        count: usize,
        said: Said,
    ) -> Result<(), Refusal> {
        let name = match said {
            Said::Start(name) => {
                self.start(line, first, count, name)?;
                name
            }
            Said::Join(name) => name,
            _ => return Ok(()),
        };
        if is_new(&mut self.mentions, name)? {
            add(&mut self.mention_lines, line)?;
        }
        Ok(())
    }

    /// Notes the name of a `start`.
    fn start(
        &mut self,
        line: LineAt,
        first: usize,
        count: usize,
        name: usize,
    ) -> Result<(), Refusal> {
        if self.started.contains(&name) {
            return Err(Refusal::Bad(LineFault::StartedTwice(name)));
        }
        if self.open.has_loop() {
            return Err(Refusal::Bad(LineFault::LoopStarts));
        }
        if count != 1 {
            return Err(Refusal::Bad(LineFault::CopiesStart));
        }
        is_new(&mut self.started, name)?;
        add(&mut self.starters, first)?;
        add(&mut self.start_lines, line)?;
        Ok(())
    }

    /// Turns to the blocks that are open after a line of a party.
    fn turn_blocks(&mut self, line: LineAt, form: Form, said: Said) -> Result<(), Refusal> {
        let begun = match said {
            Said::Repeat | Said::Forever | Said::Until(_) | Said::Receipt(Receipt::While, _, _) =>
                OpenPart::Loop,
            Said::Try(..) | Said::TryMove(..) | Said::If(_) | Said::Receipt(..) => OpenPart::First,
            Said::Either | Said::Pick(_, Written::Block) => OpenPart::Either,
            Said::Invoke(..) => OpenPart::Call,
            Said::Wait(wait) => return self.open.have_room(wait_depth(wait)),
            Said::Or => return self.open.turn(OpenPart::Or),
            Said::Else => return self.open.turn(OpenPart::Else),
            Said::End => return self.open.end(),
            Said::Leave => return self.open.leave(),
            Said::Return => return self.open.leave_all(),
            _ => return Ok(()),
        };
        self.open.begin(begun, form.0, line)
    }
}

/// Makes the lock that a line declares.
fn plan_lock(line: LockLine) -> PlanLock {
    PlanLock {
        kind: line.kind,
        limit: line.limit,
        bar: line.bar,
        fair: line.fair,
    }
}

/// Returns as how many blocks a wait counts.
fn wait_depth(wait: WaitLine) -> usize {
    usize::from(wait.until.is_some()) + usize::from(wait.is_timed)
}

/// Adds a name, unless it is there.
fn add_name(names: &mut NameSet, kind: NameKind, name: usize) -> Result<(), Refusal> {
    if is_new(names, name)? {
        Ok(())
    } else {
        Err(Refusal::Bad(LineFault::Taken(kind, name)))
    }
}

/// Adds a name, and returns whether it is new.
fn is_new(names: &mut NameSet, name: usize) -> Result<bool, AllocError> {
    let (_, is_new) = names.insert_full(name)?;
    Ok(is_new)
}

fn add<T: Drop>(list: &mut Vec<T>, item: T) -> Result<(), AllocError> {
    list.push(item)?;
    Ok(())
}
