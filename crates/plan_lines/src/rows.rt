//! Rows: lines that declare `NAME[N]`.
use crate::fault::TextFault;
use crate::line::{Line, Text};
use crate::line_list::LineList;
use script_text::unsigned;
use std::alloc::Global;

/// The most parties, locks, flags or condition variables that one line makes.
pub(crate) const MOST: u64 = 64;

/// Puts the lines of each row in its place.
pub(crate) fn rows(alloc: Global, text: &mut Text, lines: &[Line]) -> Result<Vec<Line>, TextFault> {
    let mut made = LineList::new(alloc);
    for line in lines {
        match row(alloc, text, *line)? {
            None => made.push(*line)?,
            Some((word, name, count)) => {
                push_copies(alloc, text, &mut made, *line, (word, name.as_str(), count))?;
            }
        }
    }
    Ok(made.lines)
}

/// Adds a line for each copy: the first word, and the name of the copy in the place of the second one.
pub(crate) fn push_copies(
    alloc: Global,
    text: &mut Text,
    made: &mut LineList,
    line: Line,
    copies: (usize, &str, u64),
) -> Result<(), TextFault> {
    let (word, name, count) = copies;
    for before in 0..count {
        let copy = text.words.copy(alloc, name, before.saturating_add(1))?;
        made.push(text.changed(line, &[word, copy])?)?;
    }
    Ok(())
}

/// Returns the word, the name and the number of lines of a row, or `None` for another line.
fn row(alloc: Global, text: &Text, line: Line) -> Result<Option<(usize, String, u64)>, TextFault> {
    let [word, second, ..] = text.fields(line) else {
        return Ok(None);
    };
    if !text.words.form(*word).is_some_and(|form| form.2.declares()) {
        return Ok(None);
    }
    let Some((name, inside)) = bracketed(text.words.text(*second)) else {
        return Ok(None);
    };
    match count(inside) {
        None => Ok(None),
        Some(count) => Ok(Some((*word, String::from_str(alloc, name)?, count))),
    }
}

/// Returns what is before and between the brackets at the end of a word, if it has no others.
pub(crate) fn bracketed(word: &str) -> Option<(&str, &str)> {
    let (name, tail) = word.split_once('[')?;
    let inside = tail.strip_suffix(']')?;
    if inside.contains('[') || inside.contains(']') {
        return None;
    }
    Some((name, inside))
}

/// Reads a count from 1 to [`MOST`].
pub(crate) fn count(word: &str) -> Option<u64> {
    unsigned(word).filter(|count| 1 <= *count && *count <= MOST)
}
