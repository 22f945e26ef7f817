//! The bad lines of a text.
use crate::tree::Tree;
use indexmap::IndexSet;
use plan_lines::{
    BadLine, CounterKind, LineAt, LineFault, NameKind, NameSet, Origin, Role, TextFault, Words,
};
use std::alloc::{AllocError, Global};
use std::mem::replace;

/// So many bad lines of a text are told.
const MOST_TOLD: usize = 20;

/// The bad lines so far, each once.
#[derive(Drop)]
pub(crate) struct BadLines {
    told: Vec<BadLine>,
    /// The names in bad lines that seem to declare them.
    misdeclared: NameSet,
    is_full: bool,
}

impl BadLines {
    pub(crate) fn new(alloc: Global) -> BadLines {
        BadLines {
            told: Vec::new(alloc),
            misdeclared: IndexSet::new(alloc),
            is_full: false,
        }
    }

    /// Returns whether no more bad lines are told.
    pub(crate) fn is_full(&self) -> bool {
        self.is_full
    }

    /// Adds a line of these words, unless its number is there, or it only lacks a name that a bad line seems to declare.
    pub(crate) fn add(
        &mut self,
        alloc: Global,
        tree: &Tree,
        line: LineAt,
        fields: &[usize],
        fault: LineFault,
    ) -> Result<(), AllocError> {
        if let LineFault::TooDeep = fault {
            self.is_full = true;
        }
        if let LineFault::Unknown(_, name) = fault {
            if self.seems_declared(&tree.names.words, name) {
                return Ok(());
            }
        }
        let word = word_of(&tree.names.words, fields, fault);
        self.tell(alloc, tree, line, word, fault)
    }

    /// Adds a line of which this word is wrong.
    pub(crate) fn tell(
        &mut self,
        alloc: Global,
        tree: &Tree,
        line: LineAt,
        word: usize,
        fault: LineFault,
    ) -> Result<(), AllocError> {
        let origin = Origin::new(line, &tree.origins);
        if self.has_told(origin) {
            return Ok(());
        }
        let why = fault.why_from(alloc, &tree.names.words, origin)?;
        self.told.push(BadLine::of(alloc, origin, word, why)?)?;
        self.is_full = self.is_full || self.told.len() >= MOST_TOLD;
        Ok(())
    }

    /// Returns whether a line is there.
    fn has_told(&self, origin: Origin) -> bool {
        self.told.iter().any(|told| told.line == origin.line()
            && told.file.as_str() == origin.file())
    }

    /// Notes the name of a bad line that seems to declare it.
    pub(crate) fn misdeclare(&mut self, name: usize) -> Result<(), AllocError> {
        self.misdeclared.insert_full(name)?;
        Ok(())
    }

    /// Returns whether a bad line seems to declare a name: the same one, or a row of which it is.
    fn seems_declared(&self, words: &Words, name: usize) -> bool {
        let base = base(words.text(name));
        self.misdeclared
            .as_slice()
            .iter()
            .any(|other| base == self::base(words.text(*other)))
    }

    /// Returns whether there is no bad line.
    pub(crate) fn is_empty(&self) -> bool {
        self.told.is_empty()
    }

    /// Takes the bad lines as a fault, if there is one.
    pub(crate) fn fault(&mut self, alloc: Global) -> Result<(), TextFault> {
        if self.told.is_empty() {
            Ok(())
        } else {
            Err(TextFault::Lines(replace(&mut self.told, Vec::new(alloc))))
        }
    }
}

/// Returns a name without what comes after a bracket or a dot.
fn base(name: &str) -> &str {
    let name = match name.split_once('[') {
        Some((base, _)) => base,
        None => name,
    };
    match name.split_once('.') {
        Some((base, _)) => base,
        None => name,
    }
}

/// Returns which of a line's words is wrong.
pub(crate) fn word_of(words: &Words, fields: &[usize], fault: LineFault) -> usize {
    match fault {
        LineFault::UnknownWord(word) | LineFault::Misspelt(word, _) => after(fields, 0, word),
        LineFault::Unknown(kind, name) => after(fields, first_name(words, fields, kind), name),
        LineFault::NoName(word)
        | LineFault::NoRow(word)
        | LineFault::NoIndex(word)
        | LineFault::NoCount(word)
        | LineFault::NoCopies(word)
        | LineFault::NoTurns(word)
        | LineFault::NotTried(word)
        | LineFault::Taken(_, word)
        | LineFault::TakenCopy(word)
        | LineFault::Arguments(word, _)
        | LineFault::NotAbove(word)
        | LineFault::TooHigh(word, _)
        | LineFault::NoGate(_, word)
        | LineFault::NoTryOffer(word)
        | LineFault::TooMuchRoom(word)
        | LineFault::StartedTwice(word) => after(fields, 1, word),
        LineFault::NoChoice(word) => after(fields, 3, word),
        LineFault::NotUtf8 => fields
            .iter()
            .position(|field| has_mark(words.text(*field)))
            .unwrap_or(0),
        _ => 0,
    }
}

/// Returns the place of a word among the words from this place on, or 0.
fn after(fields: &[usize], first: usize, word: usize) -> usize {
    for (at, field) in fields.iter().enumerate() {
        if at >= first && *field == word {
            return at;
        }
    }
    0
}

/// Returns from where on a line has names of this kind.
fn first_name(words: &Words, fields: &[usize], kind: NameKind) -> usize {
    let role = match fields.first() {
        Some(word) => words.form(*word).map(|form| form.2),
        None => None,
    };
    match (role, kind) {
        (Some(Role::Wait), NameKind::Counter(_)) => 4,
        (Some(Role::Wait), NameKind::Lock)
        | (Some(Role::If), NameKind::Counter(CounterKind::Channel))
        | (Some(Role::Repeat | Role::Try | Role::While), _) => 2,
        _ => 1,
    }
}

/// Returns whether a word has a `?`, as each has that is not UTF-8.
fn has_mark(text: &str) -> bool {
    text.as_bytes().iter().any(|byte| *byte == b'?')
}
