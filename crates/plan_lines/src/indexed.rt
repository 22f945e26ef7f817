//! Parties with an index: words `X[i]` and `X[i+K]` below `party NAME COUNT`.
use crate::fault::TextFault;
use crate::line::{Line, Text};
use crate::line_list::LineList;
use crate::rows::{bracketed, count};
use crate::spread::{begins_party, copies};
use std::alloc::{AllocError, Global};

/// Puts the lines of each party in the place of those of parties with indices.
pub(crate) fn indexed(
    alloc: Global,
    text: &mut Text,
    lines: &[Line],
) -> Result<Vec<Line>, TextFault> {
    let mut made = LineList::new(alloc);
    let mut below = Vec::new(alloc);
    let mut head = None;
    for line in lines {
        if is_head(text, *line) {
            push_party(alloc, text, &mut made, head, below.as_slice())?;
            head = Some(*line);
            below.clear();
        } else {
            below.push(*line)?;
        }
    }
    push_party(alloc, text, &mut made, head, below.as_slice())?;
    Ok(made.lines)
}

pub(crate) fn is_head(text: &Text, line: Line) -> bool {
    match text.fields(line) {
        [word, ..] => begins_party(text, *word),
        [] => false,
    }
}

/// Adds a line of parties and the lines below it, for each of the parties if a word has an index.
fn push_party(
    alloc: Global,
    text: &mut Text,
    made: &mut LineList,
    head: Option<Line>,
    below: &[Line],
) -> Result<(), TextFault> {
    if let Some(head) = head {
        if let Some((word, name, count)) = copies(text, head) {
            if below.iter().any(|line| has_index(text, *line)) {
                let name = String::from_str(alloc, text.words.text(name))?;
                let party = (head, word, name.as_str(), count);
                return push_each(alloc, text, made, party, below);
            }
        }
        made.push(head)?;
    }
    for line in below {
        made.push(*line)?;
    }
    Ok(())
}

/// Adds the lines of each of the parties: of the line, its word, its name and their count.
fn push_each(
    alloc: Global,
    text: &mut Text,
    made: &mut LineList,
    party: (Line, usize, &str, u64),
    below: &[Line],
) -> Result<(), TextFault> {
    let (head, word, name, count) = party;
    for copy in 0..count {
        let first = text.next();
        let copied = text.words.copy(alloc, name, copy.saturating_add(1))?;
        text.push(word)?;
        text.push(copied)?;
        made.push(text.line(head.at, first, head.is_utf8))?;
        for line in below {
            let line = line_of(alloc, text, *line, copy, count)?;
            made.push(line)?;
        }
    }
    Ok(())
}

/// Makes a line of the party that comes after `copy` others, of `count` parties.
pub(crate) fn line_of(
    alloc: Global,
    text: &mut Text,
    line: Line,
    copy: u64,
    count: u64,
) -> Result<Line, AllocError> {
    if !has_index(text, line) {
        return Ok(line);
    }
    let first = text.next();
    for at in 0..text.fields(line).len() {
        let word = text.fields(line).get(at).copied().unwrap_or(0);
        let word = word_of(alloc, text, word, copy, count)?;
        text.push(word)?;
    }
    let made = text.line(line.at, first, line.is_utf8);
    Ok(Line {
        written: line.written,
        ..made
    })
}

/// Makes a word in a line of one of the parties.
fn word_of(
    alloc: Global,
    text: &mut Text,
    word: usize,
    copy: u64,
    count: u64,
) -> Result<usize, AllocError> {
    let (name, places) = match index(text.words.text(word)) {
        None => return Ok(word),
        Some((name, places)) => (String::from_str(alloc, name)?, places),
    };
    let place = copy.saturating_add(places).checked_rem(count).unwrap_or(0);
    text.words
        .copy(alloc, name.as_str(), place.saturating_add(1))
}

fn has_index(text: &Text, line: Line) -> bool {
    text.fields(line)
        .iter()
        .any(|word| index(text.words.text(*word)).is_some())
}

/// Returns the name of a word with an index, and how many places after the party's own number the index is.
fn index(word: &str) -> Option<(&str, u64)> {
    let (name, inside) = bracketed(word)?;
    if inside == "i" {
        return Some((name, 0));
    }
    Some((name, count(inside.strip_prefix("i+")?)?))
}
