//! Lines that start or join all copies of a party: `start NAME *` and `join NAME *`.
use crate::fault::TextFault;
use crate::forms::Role;
use crate::line::{Line, Text};
use crate::line_list::LineList;
use crate::rows::{count, push_copies};
use std::alloc::{AllocError, Global};

/// Puts a line for each copy of a party in the place of a line for all.
pub(crate) fn spread(
    alloc: Global,
    text: &mut Text,
    lines: &[Line],
) -> Result<Vec<Line>, TextFault> {
    let counts = copy_counts(alloc, text, lines)?;
    let mut made = LineList::new(alloc);
    for line in lines {
        match mention(text, counts.as_slice(), *line) {
            None => made.push(*line)?,
            Some((word, name, count)) => {
                let name = String::from_str(alloc, text.words.text(name))?;
                let line = without_star(text, *line)?;
                push_copies(alloc, text, &mut made, line, (word, name.as_str(), count))?;
            }
        }
    }
    Ok(made.lines)
}

/// Returns how many copies the first line of each name makes, by the number of the name.
fn copy_counts(alloc: Global, text: &Text, lines: &[Line]) -> Result<Vec<u64>, AllocError> {
    let mut counts = vec![in alloc; 0u64; text.words.len()]?;
    for line in lines {
        if let Some((_, name, count)) = copies(text, *line) {
            if let Some(known) = counts.get_mut(name) {
                if *known == 0 {
                    *known = count;
                }
            }
        }
    }
    Ok(counts)
}

/// Returns the word, the name and the count of a line that makes copies of a party.
pub(crate) fn copies(text: &Text, line: Line) -> Option<(usize, usize, u64)> {
    let [word, name, number] = text.fields(line) else {
        return None;
    };
    if !begins_party(text, *word) {
        return None;
    }
    Some((*word, *name, count(text.words.text(*number))?))
}

/// Returns whether a line that begins with the word makes parties.
pub(crate) fn begins_party(text: &Text, word: usize) -> bool {
    match text.words.form(word) {
        Some(form) => matches!(form.2, Role::Party(_)),
        None => false,
    }
}

/// Returns the word and the name of a line for all copies, and how many there are, if there are any.
fn mention(text: &Text, counts: &[u64], line: Line) -> Option<(usize, usize, u64)> {
    let [word, name, star] = text.fields(line) else {
        return None;
    };
    let form = text.words.form(*word)?;
    if !matches!(form.2, Role::Start | Role::Join) || !text.words.is(*star, "*") {
        return None;
    }
    let count = counts.get(*name).copied()?;
    if count == 0 {
        return None;
    }
    Some((*word, *name, count))
}

/// Returns the line without its last word.
fn without_star(text: &mut Text, line: Line) -> Result<Line, AllocError> {
    let [word, name, ..] = text.fields(line) else {
        return Ok(line);
    };
    let (word, name) = (*word, *name);
    let first = text.next();
    text.push(word)?;
    text.push(name)?;
    Ok(text.line(line.at, first, line.is_utf8))
}
