//! Where a word is in a text.

/// A line of a text, and where one of its words begins and ends in it, in bytes.
#[derive(Clone, Copy)]
pub struct Spot<'a> {
    pub line: &'a [u8],
    pub start: usize,
    pub end: usize,
}

impl<'a> Spot<'a> {
    /// Finds a word, from 0, of the line with this number, from 1. Past the last line or word it is empty.
    pub fn of(text: &'a [u8], number: u64, word: usize) -> Spot<'a> {
        let line = line_of(text, number);
        let (start, end) = word_in(line, word);
        Spot { line, start, end }
    }
}

/// Returns the line with this number, without its line feed.
fn line_of(text: &[u8], number: u64) -> &[u8] {
    let mut start = 0usize;
    let mut here = 1u64;
    for (at, byte) in text.iter().enumerate() {
        if *byte == b'\n' {
            if here == number {
                return part(text, start, at);
            }
            here = here.saturating_add(1);
            start = at.saturating_add(1);
        }
    }
    if here == number {
        part(text, start, text.len())
    } else {
        &[]
    }
}

/// Returns where a word of a line begins and ends.
fn word_in(line: &[u8], word: usize) -> (usize, usize) {
    let mut before = 0usize;
    let mut start = None;
    for (at, byte) in line.iter().enumerate() {
        let is_between = matches!(*byte, b' ' | b'\t' | b'\r' | b'#');
        match start {
            None if !is_between => start = Some(at),
            Some(begin) if is_between => {
                if before == word {
                    return (begin, at);
                }
                before = before.saturating_add(1);
                start = None;
            }
            _ => {}
        }
        if *byte == b'#' {
            return (at, at);
        }
    }
    match start {
        Some(begin) if before == word => (begin, line.len()),
        _ => (line.len(), line.len()),
    }
}

/// Returns the bytes from `start` to `end`.
pub(crate) fn part(bytes: &[u8], start: usize, end: usize) -> &[u8] {
    if start <= end && end <= bytes.len() {
        &bytes[start..end]
    } else {
        &[]
    }
}
