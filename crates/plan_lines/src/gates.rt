//! Barriers and latches: of each, a mutex, a counter and a condition variable of its name.
use crate::fault::TextFault;
use crate::forms::Role;
use crate::line::{Line, Text};
use crate::line_list::LineList;
use crate::reading::number;
use crate::templates::{Filling, Template, filled};
use crate::words::NameSet;
use indexmap::IndexSet;
use std::alloc::{AllocError, Global};
use std::mem::replace;

type Templates = &'static [Template];

static BARRIER: [Template; 4] = [
    &["mutex", "@"],
    &["counter", "@", "#"],
    &["flag", "@.turn"],
    &["condvar", "@"],
];

static LATCH: [Template; 3] = [
    &["mutex", "@"],
    &["counter", "@", "#", "=", "#"],
    &["condvar", "@"],
];

/// The last party gives the counter back its first value, and turns the flag over. The others sleep until the flag is turned.
static AWAIT_BARRIER: [Template; 18] = [
    &["lock", "@"],
    &["add", "@"],
    &["if", "@", ">=", "#"],
    &["set", "@", "0"],
    &["if", "@.turn"],
    &["clear", "@.turn"],
    &["else"],
    &["set", "@.turn"],
    &["end"],
    &["notify_all", "@"],
    &["else"],
    &["if", "@.turn"],
    &["wait", "@", "@", "until", "not", "@.turn"],
    &["else"],
    &["wait", "@", "@", "until", "@.turn"],
    &["end"],
    &["end"],
    &["unlock", "@"],
];

static AWAIT_LATCH: [Template; 3] = [
    &["lock", "@"],
    &["wait", "@", "@", "until", "@", "<", "1"],
    &["unlock", "@"],
];

static COUNT_DOWN: [Template; 5] = [
    &["lock", "@"],
    &["try", "take", "@"],
    &["end"],
    &["notify_all", "@"],
    &["unlock", "@"],
];

/// The barriers and latches so far, each with the word of its number.
#[derive(Drop)]
struct Gates {
    names: NameSet,
    gates: Vec<(Role, usize)>,
    made: LineList,
}

/// Puts the lines of barriers and latches in the place of theirs.
pub(crate) fn with_gates(
    alloc: Global,
    text: &mut Text,
    lines: &[Line],
) -> Result<Vec<Line>, TextFault> {
    let mut gates = Gates {
        names: IndexSet::new(alloc),
        gates: Vec::new(alloc),
        made: LineList::new(alloc),
    };
    gates.take_all(alloc, text, lines)
}

impl Gates {
    /// Adds all lines, and takes what is written out.
    fn take_all(
        &mut self,
        alloc: Global,
        text: &mut Text,
        lines: &[Line],
    ) -> Result<Vec<Line>, TextFault> {
        for line in lines {
            self.add(alloc, text, *line)?;
        }
        Ok(replace(&mut self.made.lines, Vec::new(alloc)))
    }

    fn add(&mut self, alloc: Global, text: &mut Text, line: Line) -> Result<(), TextFault> {
        match self.templates(text, line)? {
            None => self.made.push(line),
            Some((templates, name, number)) => {
                let filling = Filling {
                    name,
                    number,
                    next: number,
                };
                for template in templates {
                    let made = filled(alloc, text, line, *template, filling)?;
                    self.made.push(made)?;
                }
                Ok(())
            }
        }
    }

    /// Returns the templates of a line, and the words of its name and number. Adds the barrier or latch that it declares.
    fn templates(
        &mut self,
        text: &Text,
        line: Line,
    ) -> Result<Option<(Templates, usize, usize)>, AllocError> {
        let [word, name, rest @ ..] = text.fields(line) else {
            return Ok(None);
        };
        let Some(form) = text.words.form(*word) else {
            return Ok(None);
        };
        Ok(match (form.2, rest) {
            (role @ (Role::Barrier | Role::Latch), [most]) => {
                if !text.words.is_name(*name) || !is_positive(text, *most) {
                    return Ok(None);
                }
                let (_, is_new) = self.names.insert_full(*name)?;
                if is_new {
                    self.gates.push((role, *most))?;
                }
                let templates: Templates = if role == Role::Latch {
                    &LATCH
                } else {
                    &BARRIER
                };
                Some((templates, *name, *most))
            }
            (role @ (Role::Await | Role::CountDown), []) => self.call_templates(role, *name),
            _ => None,
        })
    }

    /// Returns the templates of a call of a barrier or a latch.
    fn call_templates(&self, role: Role, name: usize) -> Option<(Templates, usize, usize)> {
        let (gate, most) = self.gates.get(self.names.get_index_of(&name)?)?;
        let templates: Templates = match (role, *gate) {
            (Role::Await, Role::Latch) => &AWAIT_LATCH,
            (Role::Await, _) => &AWAIT_BARRIER,
            (_, Role::Latch) => &COUNT_DOWN,
            _ => return None,
        };
        Some((templates, name, *most))
    }
}

fn is_positive(text: &Text, word: usize) -> bool {
    number(text.words.text(word)).is_some_and(|number| number > 0)
}
