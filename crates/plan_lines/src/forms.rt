//! The words that lines begin with.
use crate::counter::CounterKind;
use lock_modes::{Kind, LockStep, Mode, ModeStep};

/// A word that lines begin with: the word, what comes after it as a usage line has it, and what such a line does.
#[derive(Clone, Copy)]
pub struct Form(pub &'static str, pub &'static str, pub Role);

/// What a line with such a word does.
#[derive(Clone, Copy, PartialEq, Eq)]
pub enum Role {
    Lock(Kind),
    /// A flag, a counter, a semaphore or a channel.
    Counter(CounterKind),
    Condvar,
    Barrier,
    Latch,
    /// Begins parties, and whether they are servers.
    Party(bool),
    /// Begins a function.
    Define,
    /// Calls a function.
    Invoke,
    /// A call of a lock, and whether its word is one for reader-writer locks.
    Call(bool, LockStep),
    /// Moves a counter of this kind up, or down.
    Move(CounterKind, bool),
    /// Closes a channel.
    Close,
    Set,
    Clear,
    Assert,
    Wait,
    Await,
    CountDown,
    NotifyOne,
    NotifyAll,
    Start,
    Join,
    Repeat,
    /// Receives from a channel until it is closed.
    While,
    Forever,
    Leave,
    Return,
    Either,
    Or,
    Try,
    Pick,
    If,
    Else,
    End,
    /// Stands for the lines of a file.
    Include,
}

impl Role {
    /// Returns whether such a line declares a name, but no party and no function.
    pub fn declares(self) -> bool {
        matches!(
            self,
            Role::Lock(_) | Role::Counter(_) | Role::Condvar | Role::Barrier | Role::Latch
        )
    }
}

/// All words that lines begin with. A word's number in [`Words`](crate::words::Words) is its place here.
pub(crate) static FORMS: [Form; 59] = [
    Form("mutex", "NAME [fair]", Role::Lock(Kind::Mutex)),
    Form(
        "rwlock",
        "NAME [READERS] [bar | fair]",
        Role::Lock(Kind::RwLock),
    ),
    Form("reentrant", "NAME LEVELS", Role::Lock(Kind::Reentrant)),
    Form("flag", "NAME [true]", Role::Counter(CounterKind::Flag)),
    Form("condvar", "NAME", Role::Condvar),
    Form("party", "NAME [COUNT | *]", Role::Party(false)),
    Form("server", "NAME [COUNT | *]", Role::Party(true)),
    Form(
        "lock",
        "LOCK",
        Role::Call(false, LockStep::Modes(ModeStep::Acquire(Mode::Exclusive))),
    ),
    Form(
        "unlock",
        "LOCK",
        Role::Call(false, LockStep::Modes(ModeStep::Release(Mode::Exclusive))),
    ),
    Form(
        "read",
        "LOCK",
        Role::Call(true, LockStep::Modes(ModeStep::Acquire(Mode::Shared))),
    ),
    Form(
        "write",
        "LOCK",
        Role::Call(true, LockStep::Modes(ModeStep::Acquire(Mode::Exclusive))),
    ),
    Form(
        "upgradable_read",
        "LOCK",
        Role::Call(true, LockStep::Modes(ModeStep::Acquire(Mode::Upgradable))),
    ),
    Form(
        "unlock_read",
        "LOCK",
        Role::Call(true, LockStep::Modes(ModeStep::Release(Mode::Shared))),
    ),
    Form(
        "unlock_write",
        "LOCK",
        Role::Call(true, LockStep::Modes(ModeStep::Release(Mode::Exclusive))),
    ),
    Form(
        "unlock_upgradable",
        "LOCK",
        Role::Call(true, LockStep::Modes(ModeStep::Release(Mode::Upgradable))),
    ),
    Form(
        "unlock_upgradable_read",
        "LOCK",
        Role::Call(true, LockStep::Modes(ModeStep::Release(Mode::Upgradable))),
    ),
    Form(
        "upgrade",
        "LOCK",
        Role::Call(
            true,
            LockStep::Modes(ModeStep::Change(Mode::Upgradable, Mode::Exclusive)),
        ),
    ),
    Form(
        "downgrade",
        "LOCK",
        Role::Call(
            true,
            LockStep::Modes(ModeStep::Change(Mode::Exclusive, Mode::Shared)),
        ),
    ),
    Form(
        "downgrade_to_upgradable",
        "LOCK",
        Role::Call(
            true,
            LockStep::Modes(ModeStep::Change(Mode::Exclusive, Mode::Upgradable)),
        ),
    ),
    Form(
        "downgrade_upgradable",
        "LOCK",
        Role::Call(
            true,
            LockStep::Modes(ModeStep::Change(Mode::Upgradable, Mode::Shared)),
        ),
    ),
    Form("announce", "LOCK", Role::Call(true, LockStep::Announce)),
    Form("withdraw", "LOCK", Role::Call(true, LockStep::Withdraw)),
    Form("set", "FLAG | COUNTER N", Role::Set),
    Form("clear", "FLAG", Role::Clear),
    Form("assert", "LOOK [and LOOK]..", Role::Assert),
    Form(
        "wait",
        "CONDVAR MUTEX [until CONDITION] [or timeout]",
        Role::Wait,
    ),
    Form("notify_one", "CONDVAR", Role::NotifyOne),
    Form("notify_all", "CONDVAR", Role::NotifyAll),
    Form("start", "PARTY [*]", Role::Start),
    Form("join", "PARTY [*]", Role::Join),
    Form("repeat", "[N | until CONDITION]", Role::Repeat),
    Form("forever", "", Role::Forever),
    Form("leave", "", Role::Leave),
    Form("return", "", Role::Return),
    Form("either", "", Role::Either),
    Form("or", "", Role::Or),
    Form("try", "CALL NAME", Role::Try),
    Form("if", "CONDITION | receive CHANNEL", Role::If),
    Form("else", "", Role::Else),
    Form("end", "", Role::End),
    Form("def", "NAME [PARAMETER..]", Role::Define),
    Form("call", "NAME [ARGUMENT..]", Role::Invoke),
    Form("pick", "NAME of ROW [except LOCK]", Role::Pick),
    Form(
        "counter",
        "NAME MAX [= N]",
        Role::Counter(CounterKind::Counter),
    ),
    Form(
        "semaphore",
        "NAME PERMITS [MAX]",
        Role::Counter(CounterKind::Semaphore),
    ),
    Form(
        "channel",
        "NAME CAPACITY",
        Role::Counter(CounterKind::Channel),
    ),
    Form("add", "COUNTER", Role::Move(CounterKind::Counter, true)),
    Form("take", "COUNTER", Role::Move(CounterKind::Counter, false)),
    Form(
        "acquire",
        "SEMAPHORE",
        Role::Move(CounterKind::Semaphore, false),
    ),
    Form(
        "release",
        "SEMAPHORE",
        Role::Move(CounterKind::Semaphore, true),
    ),
    Form("send", "CHANNEL", Role::Move(CounterKind::Channel, true)),
    Form(
        "receive",
        "CHANNEL",
        Role::Move(CounterKind::Channel, false),
    ),
    Form("barrier", "NAME PARTIES", Role::Barrier),
    Form("latch", "NAME COUNT", Role::Latch),
    Form("await", "BARRIER | LATCH", Role::Await),
    Form("count_down", "LATCH", Role::CountDown),
    Form("close", "CHANNEL", Role::Close),
    Form("while", "receive CHANNEL", Role::While),
    Form("include", "FILE", Role::Include),
];
