//! Lines that a template writes out.
use crate::line::{Line, Text};
use std::alloc::{AllocError, Global};

/// The words of a line: `@` is a name, `@.turn` a name next to it, `#` a number, and `#+1` the next one.
pub(crate) type Template = &'static [&'static str];

/// The words that a template gets, by their numbers.
#[derive(Clone, Copy)]
pub(crate) struct Filling {
    pub(crate) name: usize,
    pub(crate) number: usize,
    pub(crate) next: usize,
}

/// Makes a line of a template in the place of another line.
pub(crate) fn filled(
    alloc: Global,
    text: &mut Text,
    line: Line,
    template: Template,
    filling: Filling,
) -> Result<Line, AllocError> {
    let first = text.next();
    for word in template {
        let word = match *word {
            "@" => filling.name,
            "#" => filling.number,
            "#+1" => filling.next,
            word => match word.strip_prefix("@") {
                Some(tail) => beside(alloc, text, filling.name, tail)?,
                None => text.words.number(alloc, word)?,
            },
        };
        text.push(word)?;
    }
    Ok(text.line(line.at, first, line.is_utf8))
}

/// Makes the name that has this tail after another one.
fn beside(alloc: Global, text: &mut Text, name: usize, tail: &str) -> Result<usize, AllocError> {
    let mut beside = String::from_str(alloc, text.words.text(name))?;
    beside.push_str(tail)?;
    text.words.number(alloc, beside.as_str())
}
