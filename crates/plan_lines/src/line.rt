//! Lines of words.
use crate::forms::Role;
use crate::origin::LineAt;
use crate::origins::Origins;
use crate::replacements::Replacements;
use crate::words::Words;
use std::alloc::{AllocError, Global};

/// A line of a text, with the place of its words in [`Text::fields`].
#[derive(Clone, Copy)]
pub struct Line {
    pub at: LineAt,
    pub(crate) first: usize,
    pub(crate) end: usize,
    /// Its length, with one byte after each word.
    pub(crate) bytes: usize,
    pub is_utf8: bool,
    pub written: Written,
}

/// Whether the lines below a line are those that it is short for.
#[derive(Clone, Copy, PartialEq, Eq)]
pub enum Written {
    No,
    /// What the line says is in the lines below it.
    Inline,
    /// What the line says is in the lines below it, up to an `end`.
    Block,
    /// No lines say it.
    Refused,
    /// The line is in a function that no line calls.
    Uncalled,
}

impl Line {
    /// Returns the line's words among those of all lines.
    pub fn fields(self, fields: &[usize]) -> &[usize] {
        if self.first <= self.end && self.end <= fields.len() {
            &fields[self.first..self.end]
        } else {
            &[]
        }
    }
}

/// The words of a text, and those of its lines one after another.
#[derive(Drop)]
pub struct Text {
    pub words: Words,
    pub fields: Vec<usize>,
    pub origins: Origins,
}

impl Text {
    /// Makes a text without lines.
    pub(crate) fn new(alloc: Global) -> Text {
        Text {
            words: Words::new(alloc),
            fields: Vec::new(alloc),
            origins: Origins::new(alloc),
        }
    }

    /// Returns the numbers of a line's words. A line of a function that no line calls shows none, since nothing is written out for it.
    pub(crate) fn fields(&self, line: Line) -> &[usize] {
        match line.written {
            Written::Uncalled => &[],
            _ => line.fields(self.fields.as_slice()),
        }
    }

    /// Returns whether a line begins with a word of this role.
    pub(crate) fn has_role(&self, line: Line, role: Role) -> bool {
        let form = self
            .fields(line)
            .first()
            .and_then(|word| self.words.form(*word));
        form.is_some_and(|form| form.2 == role)
    }

    /// Returns where the words of the next line begin.
    pub(crate) fn next(&self) -> usize {
        self.fields.len()
    }

    /// Adds a word to the next line.
    pub(crate) fn push(&mut self, word: usize) -> Result<(), AllocError> {
        self.fields.push(word)?;
        Ok(())
    }

    /// Makes the line of the words from this place on.
    pub(crate) fn line(&self, at: LineAt, first: usize, is_utf8: bool) -> Line {
        let mut line = Line {
            at,
            first,
            end: self.fields.len(),
            bytes: 0,
            is_utf8,
            written: Written::No,
        };
        for word in self.fields(line) {
            line.bytes = line
                .bytes
                .saturating_add(self.words.text(*word).len())
                .saturating_add(1);
        }
        line
    }

    /// Makes a line with these words in the place of the first words of another one.
    pub(crate) fn changed(&mut self, line: Line, first: &[usize]) -> Result<Line, AllocError> {
        let begin = self.next();
        self.fields.extend_from_slice(first)?;
        for at in line.first.saturating_add(first.len())..line.end {
            let word = self.fields.get(at).copied().unwrap_or(0);
            self.push(word)?;
        }
        Ok(self.line(line.at, begin, line.is_utf8))
    }

    /// Makes a line of one word in the place of another line.
    pub(crate) fn alone(
        &mut self,
        alloc: Global,
        line: Line,
        word: &str,
    ) -> Result<Line, AllocError> {
        let begin = self.next();
        let word = self.words.number(alloc, word)?;
        self.push(word)?;
        Ok(self.line(line.at, begin, true))
    }

    /// Makes a line in which the words after its first ones are replaced.
    pub(crate) fn replaced(
        &mut self,
        replacements: &Replacements,
        line: Line,
        first: usize,
    ) -> Result<Line, AllocError> {
        let fields = self.fields(line);
        if !fields.iter().any(|word| replacements.word(*word).is_some()) {
            return Ok(line);
        }
        let begin = self.next();
        for at in line.first..line.end {
            let word = self.fields.get(at).copied().unwrap_or(0);
            let other = if at >= line.first.saturating_add(first) {
                replacements.word(word)
            } else {
                None
            };
            self.push(other.unwrap_or(word))?;
        }
        let made = self.line(line.at, begin, line.is_utf8);
        Ok(Line {
            written: line.written,
            ..made
        })
    }
}
