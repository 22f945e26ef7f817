//! Repeated lines: `repeat N` .. `end`.
use crate::fault::TextFault;
use crate::forms::Role;
use crate::line::{Line, Text, Written};
use crate::rows::count;
use script_text::SCRIPT_LIMIT;
use std::alloc::{AllocError, Global};
use std::mem::replace;

/// What a line is for the blocks of a text.
#[derive(Clone, Copy)]
pub(crate) enum Part {
    /// It begins a block, of which the lines come so often.
    Begins(Option<u64>),
    Ends,
    Neither,
}

/// The lines so far, and the blocks that are open there.
#[derive(Drop)]
struct Unrolled {
    lines: Vec<Line>,
    /// Where each open block begins, and how often its lines come.
    open: Vec<(usize, Option<u64>)>,
    /// The length of all lines, but for the first ones of open blocks that are to be repeated.
    bytes: usize,
}

/// Puts the lines of a block `repeat N` in its place, N times.
pub(crate) fn repeated(alloc: Global, text: &Text, lines: &[Line]) -> Result<Vec<Line>, TextFault> {
    let mut unrolled = Unrolled {
        lines: Vec::new(alloc),
        open: Vec::new(alloc),
        bytes: 0,
    };
    unrolled.take_all(alloc, text, lines)
}

impl Unrolled {
    /// Adds all lines, and takes what is written out.
    fn take_all(
        &mut self,
        alloc: Global,
        text: &Text,
        lines: &[Line],
    ) -> Result<Vec<Line>, TextFault> {
        for line in lines {
            match part_of(text, *line) {
                Part::Begins(turns) => self.begin(*line, turns)?,
                Part::Ends => self.end(*line)?,
                Part::Neither => self.push(*line)?,
            }
            if self.bytes > SCRIPT_LIMIT + 1 {
                return Err(TextFault::TooLong);
            }
        }
        Ok(replace(&mut self.lines, Vec::new(alloc)))
    }

    fn push(&mut self, line: Line) -> Result<(), AllocError> {
        self.bytes = self.bytes.saturating_add(line.bytes);
        self.lines.push(line)?;
        Ok(())
    }

    /// Adds the first line of a block.
    fn begin(&mut self, line: Line, turns: Option<u64>) -> Result<(), AllocError> {
        self.open.push((self.lines.len(), turns))?;
        self.push(line)?;
        if turns.is_some() {
            self.bytes = self.bytes.saturating_sub(line.bytes);
        }
        Ok(())
    }

    /// Ends the innermost block by its last line.
    fn end(&mut self, line: Line) -> Result<(), TextFault> {
        let Some((at, Some(turns))) = self.open.pop() else {
            self.push(line)?;
            return Ok(());
        };
        if at > self.lines.len() {
            return Ok(());
        }
        let block = self.lines.split_off(at)?;
        let body = match block.as_slice() {
            [_, body @ ..] => body,
            [] => &[],
        };
        self.bytes = self.bytes.saturating_sub(bytes_of(body));
        for _turn in 0..turns {
            for line in body {
                self.push(*line)?;
            }
            if self.bytes > SCRIPT_LIMIT + 1 {
                return Err(TextFault::TooLong);
            }
        }
        Ok(())
    }
}

fn bytes_of(lines: &[Line]) -> usize {
    let mut bytes = 0usize;
    for line in lines {
        bytes = bytes.saturating_add(line.bytes);
    }
    bytes
}

/// Returns what a line is for the blocks of a text.
pub(crate) fn part_of(text: &Text, line: Line) -> Part {
    let fields = text.fields(line);
    let Some(form) = fields.first().and_then(|word| text.words.form(*word)) else {
        return Part::Neither;
    };
    match (form.2, fields) {
        (Role::Repeat, [_, turns]) => Part::Begins(count(text.words.text(*turns))),
        (
            Role::Repeat
            | Role::While
            | Role::Forever
            | Role::Either
            | Role::Try
            | Role::If
            | Role::Define,
            _,
        ) => Part::Begins(None),
        (Role::Invoke | Role::Pick, _) if line.written == Written::Block => Part::Begins(None),
        (Role::End, [_]) => Part::Ends,
        _ => Part::Neither,
    }
}
