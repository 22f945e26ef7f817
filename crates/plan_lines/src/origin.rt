//! Where a place comes from: its line, and the calls of functions around it.
use crate::origins::Origins;
use std::fmt;

/// The number of a line, from 1, the file that has it, and the call for which it is written out.
#[derive(Clone, Copy)]
pub struct LineAt {
    pub number: u64,
    /// The number of the included file, from 1, or 0 for the plan's own text.
    pub file: usize,
    /// The number of the call among all calls, from 1, or 0 for none.
    pub call: usize,
}

/// The line of a place, and the lines of the calls around it. It shows as `LINE from CALL from CALL`, the innermost call first.
/// A line of an included file is `FILE:LINE`.
#[derive(Clone, Copy)]
pub struct Origin<'a> {
    at: LineAt,
    pub(crate) origins: &'a Origins,
}

impl LineAt {
    /// Makes a line of the plan's own text that no call is around.
    pub fn alone(number: u64) -> LineAt {
        LineAt {
            number,
            file: 0,
            call: 0,
        }
    }
}

impl<'a> Origin<'a> {
    pub fn new(at: LineAt, origins: &'a Origins) -> Origin<'a> {
        Origin { at, origins }
    }

    /// Returns the number of the line, from 1, or 0 past the last place.
    pub fn line(self) -> u64 {
        self.at.number
    }

    /// Returns the name of the included file that has the line, or an empty one for a line of the plan itself.
    pub fn file(self) -> &'a str {
        self.origins.file(self.at.file)
    }

    /// Returns the line without the calls around it.
    pub(crate) fn without_calls(self) -> Origin<'a> {
        let at = LineAt { call: 0, ..self.at };
        Origin { at, ..self }
    }

    /// Returns the line of the innermost call around the line.
    pub fn caller(self) -> Option<Origin<'a>> {
        let call = self.origins.calls.get(self.at.call.checked_sub(1)?)?;
        Some(Origin { at: *call, ..self })
    }

    /// Returns how many calls there are in the text.
    pub fn most_callers(self) -> usize {
        self.origins.calls.len()
    }

    /// Shows the line itself. A letter of the file's name that ends a word shows as `?`, so that the line is one word.
    fn fmt_line<W: fmt::Write>(self, f: &mut fmt::Formatter<W>) -> fmt::Result {
        let file = self.file();
        for letter in file.chars() {
            let ends_word = letter <= ' ' || letter == '#';
            write!(f, "{}", if ends_word { '?' } else { letter })?;
        }
        f.write_str(if file.is_empty() { "" } else { ":" })?;
        write!(f, "{}", self.at.number)
    }
}

impl fmt::Display for Origin<'_> {
    fn fmt<W: fmt::Write>(&self, f: &mut fmt::Formatter<W>) -> fmt::Result {
        self.fmt_line(f)?;
        let mut here = *self;
        for _caller in 0..self.most_callers() {
            let Some(caller) = here.caller() else {
                break;
            };
            f.write_str(" from ")?;
            caller.fmt_line(f)?;
            here = caller;
        }
        Ok(())
    }
}
