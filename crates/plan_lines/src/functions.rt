//! Functions: `def NAME PARAMETER..` .. `end`, and `call NAME ARGUMENT..`.
//!
//! The lines of a function are read where it is called. A function that no line calls keeps them, and they are read there.
use crate::fault::TextFault;
use crate::forms::Role;
use crate::indexed::is_head;
use crate::line::{Line, Text, Written};
use crate::line_list::LineList;
use crate::origin::LineAt;
use crate::repeated::{Part, part_of};
use crate::replacements::Replacements;
use crate::uncalled::uncalled;
use crate::words::NameSet;
use indexmap::IndexSet;
use script_text::SCRIPT_LIMIT;
use std::alloc::{AllocError, Global};
use std::mem::replace;

/// The lines of a function: its first one, and where those between it and its `end` are.
#[derive(Clone, Copy)]
struct Function {
    head: Line,
    first: usize,
    end: usize,
    /// Where its first line is among those that are written out.
    place: usize,
    is_called: bool,
}

/// The lines that are written out so far.
#[derive(Drop)]
struct Calls<'a> {
    lines: &'a [Line],
    /// The names of the functions so far, and the number of the first function with each of them.
    names: NameSet,
    numbers: Vec<usize>,
    functions: Vec<Function>,
    /// The number of the function of each call that is written out.
    callees: Vec<usize>,
    replacements: Replacements,
    /// The lines that come next, in reverse.
    pending: Vec<Line>,
    made: LineList,
}

/// Puts the lines of functions below the calls of them, each with an `end` below those, and leaves these functions empty.
pub(crate) fn written_out(
    alloc: Global,
    text: &mut Text,
    lines: &[Line],
) -> Result<Vec<Line>, TextFault> {
    if !lines.iter().any(|line| text.has_role(*line, Role::Define)
        || text.has_role(*line, Role::Invoke))
    {
        return Ok(Vec::from_slice(alloc, lines)?);
    }
    let mut calls = Calls {
        lines,
        names: IndexSet::new(alloc),
        numbers: Vec::new(alloc),
        functions: Vec::new(alloc),
        callees: Vec::new(alloc),
        replacements: Replacements::new(alloc, text)?,
        pending: Vec::new(alloc),
        made: LineList::new(alloc),
    };
    calls.take_all(alloc, text)
}

impl Calls<'_> {
    fn add_all(&mut self, alloc: Global, text: &mut Text) -> Result<(), TextFault> {
        // Lines before this one are in a function.
        let mut next = 0usize;
        for (at, line) in self.lines.iter().enumerate() {
            if at < next {
                continue;
            }
            if text.has_role(*line, Role::Define) {
                next = self.define(text, at, *line)?;
            } else {
                self.pending.push(*line)?;
                self.write_pending(alloc, text)?;
            }
        }
        Ok(())
    }

    /// Adds a function, and returns where the line after it is.
    fn define(&mut self, text: &Text, at: usize, head: Line) -> Result<usize, TextFault> {
        let first = at.saturating_add(1);
        let (end, has_end) = end_of(text, self.lines, first);
        if let [_, name, ..] = text.fields(head) {
            let (_, is_new) = self.names.insert_full(*name)?;
            if is_new {
                self.numbers.push(self.functions.len())?;
            }
        }
        self.functions.push(Function {
            head,
            first,
            end,
            place: self.made.lines.len(),
            is_called: false,
        })?;
        self.made.push(head)?;
        match self.lines.get(end) {
            Some(last) if has_end => {
                self.made.push(*last)?;
                Ok(end.saturating_add(1))
            }
            _ => Ok(end),
        }
    }

    /// Adds the pending lines, and the lines of the functions that these call.
    fn write_pending(&mut self, alloc: Global, text: &mut Text) -> Result<(), TextFault> {
        // Each line has at least two bytes.
        for _line in 0..SCRIPT_LIMIT {
            let Some(line) = self.pending.pop() else {
                break;
            };
            match self.callee(text, line) {
                None => self.made.push(line)?,
                Some(number) => self.call(alloc, text, line, number)?,
            }
        }
        Ok(())
    }

    /// Returns the number of the function that a line calls, if the function is above the line and has as many parameters.
    fn callee(&self, text: &Text, line: Line) -> Option<usize> {
        if !text.has_role(line, Role::Invoke) {
            return None;
        }
        let fields = text.fields(line);
        let number = *self.numbers.get(self.names.get_index_of(fields.get(1)?)?)?;
        let function = self.functions.get(number)?;
        let is_above = match line.at.call.checked_sub(1) {
            None => true,
            Some(call) => number < self.callees.get(call).copied().unwrap_or(0),
        };
        let has_all = text.fields(function.head).len() == fields.len();
        if is_above && has_all {
            Some(number)
        } else {
            None
        }
    }

    /// Adds a call, and puts the lines of its function before the pending ones.
    fn call(
        &mut self,
        alloc: Global,
        text: &mut Text,
        line: Line,
        number: usize,
    ) -> Result<(), TextFault> {
        let Some(function) = self.functions.get_mut(number) else {
            return Ok(());
        };
        function.is_called = true;
        let function = *function;
        self.made.push(Line {
            written: Written::Block,
            ..line
        })?;
        text.origins.calls.push(line.at)?;
        self.callees.push(number)?;
        let call = text.origins.calls.len();
        let end = text.alone(alloc, line, "end")?;
        self.pending.push(end)?;
        self.bind(text, function.head, line)?;
        for at in (function.first..function.end).rev() {
            if let Some(inside) = self.lines.get(at) {
                let inside = text.replaced(&self.replacements, *inside, 1)?;
                let at = LineAt { call, ..inside.at };
                self.pending.push(Line { at, ..inside })?;
            }
        }
        self.replacements.release(0);
        Ok(())
    }

    /// Adds all lines, and takes them with those of each function that no line calls below its first one.
    fn take_all(&mut self, alloc: Global, text: &mut Text) -> Result<Vec<Line>, TextFault> {
        self.add_all(alloc, text)?;
        let made = replace(&mut self.made, LineList::new(alloc));
        let mut next = 0usize;
        for (at, line) in made.lines.iter().enumerate() {
            self.made.push(*line)?;
            match self.functions.get(next).copied() {
                Some(function) if function.place == at => {
                    next = next.saturating_add(1);
                    if !function.is_called {
                        self.add_uncalled(alloc, text, function)?;
                    }
                }
                _ => {}
            }
        }
        Ok(replace(&mut self.made.lines, Vec::new(alloc)))
    }

    /// Adds the lines of a function that no line calls. A parameter is `1`, which is a name and a number.
    fn add_uncalled(
        &mut self,
        alloc: Global,
        text: &mut Text,
        function: Function,
    ) -> Result<(), TextFault> {
        let argument = text.words.number(alloc, "1")?;
        for parameter in text.fields(function.head).iter().skip(2) {
            self.replacements.bind(0, *parameter, argument)?;
        }
        for at in function.first..function.end {
            if let Some(line) = self.lines.get(at) {
                let line = uncalled(alloc, text, &self.replacements, *line)?;
                self.made.push(line)?;
            }
        }
        self.replacements.release(0);
        Ok(())
    }

    /// Replaces the parameters of a function by the arguments of a call.
    fn bind(&mut self, text: &Text, head: Line, call: Line) -> Result<(), AllocError> {
        let parameters = text.fields(head).iter().skip(2);
        for (parameter, argument) in parameters.zip(text.fields(call).iter().skip(2)) {
            self.replacements.bind(0, *parameter, *argument)?;
        }
        Ok(())
    }
}

/// Returns where the `end` of a function is whose lines begin here, and whether it is there. A function ends at the latest where
/// another one or a party begins.
fn end_of(text: &Text, lines: &[Line], first: usize) -> (usize, bool) {
    let mut open = 0usize;
    for (at, line) in lines.iter().enumerate().skip(first) {
        match part_of(text, *line) {
            Part::Begins(_) if text.has_role(*line, Role::Define) => return (at, false),
            Part::Begins(_) => open = open.saturating_add(1),
            Part::Ends if open == 0 => return (at, true),
            Part::Ends => open = open.saturating_sub(1),
            Part::Neither if is_head(text, *line) => return (at, false),
            Part::Neither => {}
        }
    }
    (lines.len(), false)
}
