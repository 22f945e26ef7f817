//! Why a line is bad.
use crate::counter::CounterKind;
use crate::files::FileFault;
use crate::forms::Form;
use crate::origin::{LineAt, Origin};
use crate::origins::Origins;
use crate::words::Words;
use std::alloc::{AllocError, Global};
use std::fmt;

/// What a name is one of.
#[derive(Clone, Copy)]
pub enum NameKind {
    Lock,
    Counter(CounterKind),
    Condvar,
    Party,
    Function,
}

/// Why a line is bad. Words are told by their numbers.
#[derive(Clone, Copy)]
pub enum LineFault {
    /// The text has no line.
    NothingSaid,
    NotUtf8,
    /// No line begins with the word, and no word that one begins with is like it.
    UnknownWord(usize),
    /// The same, but this word is like it.
    Misspelt(usize, &'static str),
    /// The fields after the word are not as its form has them.
    Form(Form),
    NoName(usize),
    /// The word in the line of a lock, a flag or a condition variable is no `NAME[N]`.
    NoRow(usize),
    /// The word in a line of a party is no `X[i]` or `X[i+K]` below a party with a count.
    NoIndex(usize),
    /// The lock of this word has no limit.
    NoLimit(usize),
    /// The counter of this word has no greatest value, which is at least this.
    NoMost(usize, usize),
    /// A number is over the greatest value of the counter with this name.
    TooHigh(usize, usize),
    NoCount(usize),
    /// A line for all copies of the party with this name, which has none.
    NoCopies(usize),
    NoTurns(usize),
    NotTried(usize),
    /// Nothing of this kind has the name.
    Unknown(NameKind, usize),
    /// Something of this kind has the name.
    Taken(NameKind, usize),
    /// A call of this function has another number of arguments than the function has parameters.
    Arguments(usize, usize),
    /// A function calls this one, which is not above it.
    NotAbove(usize),
    /// A try of a send on this channel, which has no room.
    NoTryOffer(usize),
    /// A channel that is closed has too much room.
    TooMuchRoom(usize),
    /// No latch, or else no barrier or latch, has the name.
    NoGate(bool, usize),
    /// No lock is in the row, or only the one that is left out.
    NoChoice(usize),
    /// A party has the name of a copy.
    TakenCopy(usize),
    /// A line with this word is in a block. The block begins with the second word, in this line.
    InBlock(usize, &'static str, LineAt),
    /// A line with this word is above the first party.
    NoParty(usize),
    /// A word of a block that does not fit the open blocks, by the text.
    Unfit(&'static str),
    TooDeep,
    StartedTwice(usize),
    CopiesStart,
    LoopStarts,
    /// A line starts or joins a party that has no line.
    UnknownParty,
    /// A line starts a party that never begins: only parties that never begin start it.
    NeverBegins,
    /// A line of a core is no place.
    NoPlace,
    /// A place of a core has this number in the place of the next one.
    NoPlaceNumber(usize, u64),
    /// A way of a core leads to no place.
    NoSuchPlace,
    /// A block has no end. It begins with this word, in this line.
    NoEnd(&'static str, LineAt),
    /// The included file with this name is not read.
    Unread(usize, FileFault),
    /// The file with this name is included where its own lines go on.
    IncludesItself(usize),
}

/// Why a line does not go on: it is bad, or memory was refused.
#[derive(Clone, Copy)]
pub enum Refusal {
    Bad(LineFault),
    OutOfMemory,
}

impl From<AllocError> for Refusal {
    fn from(_fault: AllocError) -> Refusal {
        Refusal::OutOfMemory
    }
}

impl LineFault {
    /// Makes the reason's text.
    pub fn why(
        self,
        alloc: Global,
        words: &Words,
        origins: &Origins,
    ) -> Result<String, AllocError> {
        let why = Why {
            fault: self,
            words,
            origins,
        };
        format!(in alloc; "{why}")
    }

    /// Returns the reason's text, if it is the same for each line.
    fn plain(self) -> Option<&'static str> {
        Some(match self {
            LineFault::NothingSaid => "the plan says nothing",
            LineFault::NotUtf8 => "not UTF-8",
            LineFault::Unfit(text) => text,
            LineFault::TooDeep => "more than 64 open blocks",
            LineFault::CopiesStart => "'start' in a party with copies",
            LineFault::LoopStarts => "'start' in a loop",
            LineFault::UnknownParty => "unknown party",
            LineFault::NeverBegins => "never begins",
            LineFault::NoPlace => "write 'NUMBER ACT -> PLACE [| PLACE] [line N [from N]..]'",
            LineFault::NoSuchPlace => "a way leads to no place of its party",
            _ => return None,
        })
    }

    /// Makes the reason's text, with the calls around the line.
    pub fn why_from(
        self,
        alloc: Global,
        words: &Words,
        origin: Origin,
    ) -> Result<String, AllocError> {
        let mut text = self.why(alloc, words, origin.origins)?;
        write_callers(&mut text, origin)?;
        Ok(text)
    }
}

/// Appends the calls around a line to the reason why it is bad.
pub fn write_callers(text: &mut String, origin: Origin) -> Result<(), AllocError> {
    let mut here = origin;
    for _caller in 0..origin.most_callers() {
        let Some(caller) = here.caller() else {
            break;
        };
        write!(text, ", from line {}", caller.without_calls())?;
        here = caller;
    }
    Ok(())
}

/// The calls that may be tried.
const TRIES: &str =
    "a try is of lock, read, write, upgradable_read, upgrade, add, take, acquire, release, send or receive";

/// A reason, and the words and the lines that it names. It shows as the text that the program prints.
#[derive(Clone, Copy)]
struct Why<'a> {
    fault: LineFault,
    words: &'a Words,
    origins: &'a Origins,
}

impl fmt::Display for NameKind {
    fn fmt<W: fmt::Write>(&self, f: &mut fmt::Formatter<W>) -> fmt::Result {
        f.write_str(match self {
            NameKind::Lock => "lock",
            NameKind::Counter(kind) => kind.word(),
            NameKind::Condvar => "condvar",
            NameKind::Party => "party",
            NameKind::Function => "function",
        })
    }
}

impl fmt::Display for Why<'_> {
    fn fmt<W: fmt::Write>(&self, f: &mut fmt::Formatter<W>) -> fmt::Result {
        match self.fault.plain() {
            Some(text) => f.write_str(text),
            None => self.fmt_line(f),
        }
    }
}

impl Why<'_> {
    /// Shows the reason of a line with another line, another number or other fields in it.
    fn fmt_line<W: fmt::Write>(&self, f: &mut fmt::Formatter<W>) -> fmt::Result {
        match self.fault {
            LineFault::NoPlaceNumber(word, next) => {
                write!(f, "'{}' in the place of {next}", self.text(word))
            }
            LineFault::NoEnd(word, line) => {
                write!(f, "'{word}' of line {} without 'end'", self.line(line))
            }
            LineFault::InBlock(word, begin, line) => write!(
                f,
                "'{}' before the 'end' of '{begin}' of line {}",
                self.text(word),
                self.line(line)
            ),
            LineFault::Form(Form(word, form, _)) if form.is_empty() => {
                write!(f, "'{word}' stands alone in its line")
            }
            LineFault::Form(Form(word, form, _)) => write!(f, "write '{word} {form}'"),
            _ => self.fmt_word(f),
        }
    }

    fn text(&self, word: usize) -> &str {
        self.words.text(word)
    }

    /// Returns a line, without the calls around it.
    fn line(&self, line: LineAt) -> Origin<'_> {
        Origin::new(line, self.origins).without_calls()
    }

    /// Shows the reason of a line of which a word is wrong by itself.
    fn fmt_word<W: fmt::Write>(&self, f: &mut fmt::Formatter<W>) -> fmt::Result {
        match self.fault {
            LineFault::UnknownWord(word) => write!(f, "unknown word '{}'", self.text(word)),
            LineFault::Misspelt(word, near) => {
                write!(
                    f,
                    "unknown word '{}'; did you mean '{near}'?",
                    self.text(word)
                )
            }
            LineFault::NoName(word) => self.quote(
                f,
                word,
                "is no name; a name has letters, digits, '_', '-' and '.'",
            ),
            LineFault::NoRow(word) => {
                self.quote(f, word, "is no row; write 'NAME[N]' with N from 1 to 64")
            }
            LineFault::NoIndex(word) => self.quote(
                f,
                word,
                "is no index; write 'X[i]' or 'X[i+K]' below 'party NAME COUNT'",
            ),
            LineFault::NoLimit(word) => self.quote(f, word, "needs a limit from 1 to 4294967295"),
            LineFault::NoMost(word, least) => {
                write!(f, "'{}' needs a number from {least} to 64", self.text(word))
            }
            LineFault::NoCount(word) => {
                self.quote(f, word, "is no count from 1 to 64, and no '*'")
            }
            LineFault::NoTurns(word) => {
                self.quote(f, word, "is no number of turns from 1 to 64")
            }
            LineFault::NoParty(word) => self.quote(f, word, "above the first party"),
            LineFault::NotTried(word) => write!(f, "no try of '{}'; {TRIES}", self.text(word)),
            _ => self.fmt_name(f),
        }
    }

    /// Shows the reason of a line with a name that is there, is not there, or is of something else.
    fn fmt_name<W: fmt::Write>(&self, f: &mut fmt::Formatter<W>) -> fmt::Result {
        match self.fault {
            LineFault::Unknown(kind, name) => write!(f, "no {kind} '{}'", self.text(name)),
            LineFault::Taken(kind, name) => {
                write!(f, "there is a {kind} '{}' already", self.text(name))
            }
            LineFault::TakenCopy(name) => write!(
                f,
                "there is a party with the name of a copy of '{}' already",
                self.text(name)
            ),
            LineFault::NoCopies(word) => {
                let name = self.text(word);
                write!(f, "no copies of '{name}'; write 'party {name} COUNT'")
            }
            LineFault::StartedTwice(name) => {
                write!(f, "party '{}' is started already", self.text(name))
            }
            LineFault::Arguments(name, 1) => {
                write!(f, "function '{}' has one parameter", self.text(name))
            }
            LineFault::Arguments(name, count) => {
                write!(f, "function '{}' has {count} parameters", self.text(name))
            }
            LineFault::NotAbove(name) => write!(
                f,
                "function '{}' is not above the function that calls it",
                self.text(name)
            ),
            _ => self.fmt_counted(f),
        }
    }

    /// Shows the reason of a line with a counter, a channel, a barrier, a latch, a row or a file that does not permit it.
    fn fmt_counted<W: fmt::Write>(&self, f: &mut fmt::Formatter<W>) -> fmt::Result {
        match self.fault {
            LineFault::TooHigh(name, most) => {
                write!(f, "'{}' is never over {most}", self.text(name))
            }
            LineFault::NoTryOffer(name) => {
                write!(
                    f,
                    "no try of a send on '{}', which has no room",
                    self.text(name)
                )
            }
            LineFault::TooMuchRoom(name) => self.quote(
                f,
                name,
                "is closed, and may have room for 63 items at most",
            ),
            LineFault::NoGate(true, name) => write!(f, "no latch '{}'", self.text(name)),
            LineFault::NoGate(false, name) => {
                write!(f, "no barrier or latch '{}'", self.text(name))
            }
            LineFault::Unread(name, why) => {
                write!(f, "cannot read '{}': {why}", self.text(name))
            }
            LineFault::IncludesItself(name) => self.quote(f, name, "includes itself"),
            LineFault::NoChoice(row) => { write!(f, "no lock to pick in row '{}'", self.text(row)) }
            _ => Ok(()),
        }
    }

    /// Shows a word in quotes, and what is wrong with it.
    fn quote<W: fmt::Write>(
        &self,
        f: &mut fmt::Formatter<W>,
        word: usize,
        why: &str,
    ) -> fmt::Result {
        write!(f, "'{}' {why}", self.text(word))
    }
}
