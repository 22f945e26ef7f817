//! Locks that are chosen at run time: `pick NAME of ROW [except LOCK]`.
use crate::fault::TextFault;
use crate::forms::Role;
use crate::indexed::is_head;
use crate::line::{Line, Text, Written};
use crate::line_list::LineList;
use crate::repeated::{Part, part_of};
use crate::replacements::Replacements;
use crate::rows::MOST;
use crate::words::NameSet;
use indexmap::IndexSet;
use script_text::SCRIPT_LIMIT;
use std::alloc::{AllocError, Global};
use std::mem::replace;

/// What comes next: a line, or a name that a lock replaces.
#[derive(Clone, Copy)]
enum Item {
    Line(Line),
    Bind(usize, usize),
}

/// The lines that are written out so far.
#[derive(Drop)]
struct Picks {
    /// The names of all locks.
    locks: NameSet,
    replacements: Replacements,
    /// How many blocks are open.
    depth: usize,
    /// The items that come next, in reverse.
    pending: Vec<Item>,
    made: LineList,
}

/// Puts the lines up to the end of the block below each `pick`, for each lock, with an `or` between and an `end` after them.
pub(crate) fn picked(
    alloc: Global,
    text: &mut Text,
    lines: &[Line],
) -> Result<Vec<Line>, TextFault> {
    if !lines.iter().any(|line| text.has_role(*line, Role::Pick)) {
        return Ok(Vec::from_slice(alloc, lines)?);
    }
    let locks = locks(alloc, text, lines)?;
    let replacements = Replacements::new(alloc, text)?;
    let mut picks = Picks {
        locks,
        replacements,
        depth: 0,
        pending: Vec::new(alloc),
        made: LineList::new(alloc),
    };
    picks.take_all(alloc, text, lines)
}

/// Returns the names of all locks.
fn locks(alloc: Global, text: &Text, lines: &[Line]) -> Result<NameSet, AllocError> {
    let mut names: NameSet = IndexSet::new(alloc);
    for line in lines {
        if let [word, name, ..] = text.fields(*line) {
            let form = text.words.form(*word);
            if form.is_some_and(|form| matches!(form.2, Role::Lock(_))) {
                names.insert_full(*name)?;
            }
        }
    }
    Ok(names)
}

impl Picks {
    /// Adds all lines, and takes what is written out.
    fn take_all(
        &mut self,
        alloc: Global,
        text: &mut Text,
        lines: &[Line],
    ) -> Result<Vec<Line>, TextFault> {
        for line in lines.iter().rev() {
            self.pending.push(Item::Line(*line))?;
        }
        // Each line has at least two bytes, and a name is bound before each `or`.
        for _item in 0..SCRIPT_LIMIT {
            match self.pending.pop() {
                None => break,
                Some(Item::Bind(name, lock)) => self.replacements.bind(self.depth, name, lock)?,
                Some(Item::Line(line)) => self.add(alloc, text, line)?,
            }
        }
        Ok(replace(&mut self.made.lines, Vec::new(alloc)))
    }

    /// Adds a line.
    fn add(&mut self, alloc: Global, text: &mut Text, line: Line) -> Result<(), TextFault> {
        if text.has_role(line, Role::Pick) {
            // nothing replaces the name that a pick binds
            let line = text.replaced(&self.replacements, line, 2)?;
            return self.pick(alloc, text, line);
        }
        let line = text.replaced(&self.replacements, line, 1)?;
        if is_head(text, line) {
            self.depth = 0;
        }
        if ends_part(text, line) {
            self.replacements.release(self.depth);
        }
        match part_of(text, line) {
            Part::Begins(_) => self.depth = self.depth.saturating_add(1),
            Part::Ends => self.depth = self.depth.saturating_sub(1),
            Part::Neither => {}
        }
        self.made.push(line)
    }

    /// Adds a pick, and its parts to the pending items.
    fn pick(&mut self, alloc: Global, text: &mut Text, line: Line) -> Result<(), TextFault> {
        let (name, locks) = self.choices(alloc, text, line)?;
        let written = match locks.as_slice() {
            [] => Written::No,
            [_] => Written::Inline,
            _ => Written::Block,
        };
        self.made.push(Line { written, ..line })?;
        match locks.as_slice() {
            [] => Ok(()),
            [lock] => Ok(self.replacements.bind(self.depth, name, *lock)?),
            locks => self.add_parts(alloc, text, line, (name, locks)),
        }
    }

    /// Puts the lines below a pick, up to the end of the part, before the pending ones, for each of these locks.
    fn add_parts(
        &mut self,
        alloc: Global,
        text: &mut Text,
        line: Line,
        choices: (usize, &[usize]),
    ) -> Result<(), TextFault> {
        let (name, locks) = choices;
        let rest = self.rest(alloc, text)?;
        self.have_room(rest.as_slice(), locks.len())?;
        let or = text.alone(alloc, line, "or")?;
        let end = text.alone(alloc, line, "end")?;
        self.depth = self.depth.saturating_add(1);
        self.pending.push(Item::Line(end))?;
        for (number, lock) in locks.iter().enumerate().rev() {
            self.pending.extend_from_slice(rest.as_slice())?;
            self.pending.push(Item::Bind(name, *lock))?;
            if number > 0 {
                self.pending.push(Item::Line(or))?;
            }
        }
        Ok(())
    }

    /// Takes the pending lines up to the end of the part, in reverse.
    fn rest(&mut self, alloc: Global, text: &Text) -> Result<Vec<Item>, AllocError> {
        let mut open = 0usize;
        let mut first = self.pending.len();
        for item in self.pending.iter().rev() {
            if let Item::Line(line) = item {
                let part = part_of(text, *line);
                if is_head(text, *line) || open == 0 && ends_part(text, *line) {
                    break;
                }
                match part {
                    Part::Begins(_) => open = open.saturating_add(1),
                    Part::Ends => open = open.saturating_sub(1),
                    Part::Neither => {}
                }
            }
            first = first.saturating_sub(1);
        }
        if first > self.pending.len() {
            return Ok(Vec::new(alloc));
        }
        Ok(self.pending.split_off(first)?)
    }

    /// Refuses lines that are too many with so many copies of these.
    fn have_room(&self, rest: &[Item], copies: usize) -> Result<(), TextFault> {
        let mut bytes = 0usize;
        for item in rest {
            if let Item::Line(line) = item {
                bytes = bytes.saturating_add(line.bytes);
            }
        }
        if self.made.bytes.saturating_add(bytes.saturating_mul(copies)) > SCRIPT_LIMIT + 1 {
            return Err(TextFault::TooLong);
        }
        Ok(())
    }

    /// Returns the name of a pick, and the locks among which it chooses.
    fn choices(
        &self,
        alloc: Global,
        text: &mut Text,
        line: Line,
    ) -> Result<(usize, Vec<usize>), AllocError> {
        let mut locks = Vec::new(alloc);
        let (name, row, except) = match text.fields(line) {
            [_, name, of, row] if text.words.is(*of, "of") => (*name, *row, None),
            [_, name, of, row, except, lock]
                if text.words.is(*of, "of") && text.words.is(*except, "except") => {
                (*name, *row, Some(*lock))
            }
            _ => return Ok((0, locks)),
        };
        let row = String::from_str(alloc, text.words.text(row))?;
        for number in 0..MOST {
            let lock = text
                .words
                .copy(alloc, row.as_str(), number.saturating_add(1))?;
            if !self.locks.contains(&lock) {
                break;
            }
            if Some(lock) != except {
                locks.push(lock)?;
            }
        }
        Ok((name, locks))
    }
}

/// Returns whether a line ends a part of the block around it.
fn ends_part(text: &Text, line: Line) -> bool {
    is_head(text, line)
        || text.has_role(line, Role::End)
        || text.has_role(line, Role::Or)
        || text.has_role(line, Role::Else)
}
