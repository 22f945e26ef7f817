//! What lines say. Names are the numbers of words.
use crate::counter::{Counter, CounterKind};
use crate::line::Written;
use lock_modes::{Kind, LockStep};

/// What a line says.
#[derive(Clone, Copy)]
pub enum Said {
    Lock(LockLine, usize),
    Counter(Counter, usize),
    Condvar(usize),
    /// Parties, and whether they are servers.
    Party(bool, Parties, usize),
    /// A call, and whether its word is one for reader-writer locks.
    Call(bool, LockStep, usize),
    Try(bool, LockStep, usize),
    /// Receives from a channel that may be closed. The second name is the counter of its tokens.
    Receipt(Receipt, usize, usize),
    /// Closes a channel or receives until it is closed, but no such channel is there.
    Unclosed(usize),
    /// Tries a send on a channel without room.
    TryOffer(usize),
    /// Moves a counter of this kind up, or down.
    Move(CounterKind, bool, usize),
    TryMove(CounterKind, bool, usize),
    /// Gives a flag this value.
    SetFlag(bool, usize),
    SetCounter(usize, usize),
    Assert(Condition),
    NotifyOne(usize),
    NotifyAll(usize),
    Start(usize),
    Join(usize),
    Wait(WaitLine),
    /// A call of a latch, or else of a barrier or a latch, which is not there.
    Unlatched(bool, usize),
    If(Condition),
    Until(Condition),
    /// Begins a function with so many parameters.
    Define(usize, usize),
    /// Calls a function with so many arguments.
    Invoke(usize, usize, Written),
    /// A lock that is chosen in a row of locks.
    Pick(usize, Written),
    Repeat,
    Forever,
    Leave,
    Return,
    Either,
    Or,
    Else,
    End,
}

/// How a block receives from a channel that may be closed.
#[derive(Clone, Copy, PartialEq, Eq)]
pub enum Receipt {
    /// If an item is there.
    Try,
    /// Once an item is there, or the channel is closed.
    If,
    /// Again and again, until the channel is closed.
    While,
}

/// How many parties a line makes.
#[derive(Clone, Copy)]
pub enum Parties {
    One,
    Copies(u64),
    /// Any number. The plan has one of them.
    Any,
}

/// A look at whether a flag is true, or whether a counter is at least at this number, and the answer that it is to have.
#[derive(Clone, Copy)]
pub struct Look {
    pub value: bool,
    pub name: usize,
    pub number: Option<usize>,
}

/// What is between a look of a condition and the next one.
#[derive(Clone, Copy, PartialEq, Eq)]
pub enum Join {
    And,
    Or,
    /// There is no next one.
    Last,
}

/// Looks, each with what comes after it.
pub type Looks = Vec<(Look, Join)>;

/// A condition: where its looks are among those of all conditions.
#[derive(Clone, Copy)]
pub struct Condition {
    pub first: usize,
    pub end: usize,
}

impl Condition {
    /// Returns the looks of the condition among those of all conditions.
    pub fn looks(self, all: &[(Look, Join)]) -> &[(Look, Join)] {
        if self.first <= self.end && self.end <= all.len() {
            &all[self.first..self.end]
        } else {
            &[]
        }
    }
}

/// What a line says of the lock that it declares.
#[derive(Clone, Copy)]
pub struct LockLine {
    pub kind: Kind,
    /// The limit of readers or levels, and 1 for a mutex.
    pub limit: u64,
    pub bar: bool,
    pub fair: bool,
}

/// A wait on a condition variable.
#[derive(Clone, Copy)]
pub struct WaitLine {
    pub condvar: usize,
    pub mutex: usize,
    /// The party waits again and again until this is so.
    pub until: Option<Condition>,
    pub is_timed: bool,
}
