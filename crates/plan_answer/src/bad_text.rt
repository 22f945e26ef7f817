//! Bad lines of a plan: each with its place, its text, and marks below the word that is wrong.
use plan_lines::{BadLine, Sources, Spot};
use std::alloc::{AllocError, Global};

/// A longer line is not shown, in bytes.
const LONGEST: usize = 200;

/// The least width of the number of a line that is shown.
const NUMBER_WIDTH: usize = 4;

/// Makes the text that tells the bad lines of a plan in a file, and of the files that it includes.
pub(crate) fn bad_text(
    alloc: Global,
    file: &str,
    sources: &Sources,
    lines: &[BadLine],
) -> Result<String, AllocError> {
    let mut text = String::new(alloc);
    for line in lines {
        if !text.is_empty() {
            text.push('\n')?;
        }
        let file = match line.file.as_str() {
            "" => file,
            included => included,
        };
        write_bad(alloc, &mut text, file, sources.text_of(file), line)?;
    }
    Ok(text)
}

/// A line as it is shown.
#[derive(Drop)]
struct Shown {
    /// The line's text, with a `?` in the place of what cannot be shown.
    text: String,
    /// Blanks before the wrong word, and marks below it.
    marks: String,
    /// The number of the word's first letter, from 1.
    column: u64,
}

fn write_bad(
    alloc: Global,
    text: &mut String,
    file: &str,
    script: &[u8],
    bad: &BadLine,
) -> Result<(), AllocError> {
    let spot = Spot::of(script, bad.line, bad.word);
    let mut shown = Shown {
        text: String::new(alloc),
        marks: String::new(alloc),
        column: 1,
    };
    match str::from_utf8(spot.line) {
        Ok(line) => shown.add_text(line, spot)?,
        Err(_) => shown.add_bytes(spot)?,
    }
    let (column, why) = (shown.column, bad.why.as_str());
    write!(text, "{file}:{}:{column}: {why}", bad.line)?;
    if spot.start < spot.end && spot.line.len() <= LONGEST {
        let digits = format!(in alloc; "{}", bad.line)?;
        text.push('\n')?;
        write_spaces(text, NUMBER_WIDTH.saturating_sub(digits.len()))?;
        writeln!(text, "{} | {}", digits.as_str(), shown.text.as_str())?;
        write_spaces(text, NUMBER_WIDTH.max(digits.len()))?;
        write!(text, " | {}", shown.marks.as_str())?;
    }
    Ok(())
}

impl Shown {
    /// Adds the letters of a line.
    fn add_text(&mut self, line: &str, spot: Spot) -> Result<(), AllocError> {
        let mut at = 0usize;
        for letter in line.chars() {
            self.add(letter, at, spot)?;
            at = at.saturating_add(letter.len_utf8());
        }
        Ok(())
    }

    /// Adds the bytes of a line that is not UTF-8.
    fn add_bytes(&mut self, spot: Spot) -> Result<(), AllocError> {
        for (at, byte) in spot.line.iter().enumerate() {
            let letter = if byte.is_ascii() {
                char::from(*byte)
            } else {
                '?'
            };
            self.add(letter, at, spot)?;
        }
        Ok(())
    }

    /// Adds a letter that begins at this byte.
    fn add(&mut self, letter: char, at: usize, spot: Spot) -> Result<(), AllocError> {
        if letter == '\r' {
            return Ok(());
        }
        let is_shown = letter == '\t' || letter >= ' ' && letter != '\u{7f}';
        self.text.push(if is_shown { letter } else { '?' })?;
        if at < spot.start {
            self.column = self.column.saturating_add(1);
            self.marks.push(if letter == '\t' { '\t' } else { ' ' })
        } else if at < spot.end {
            self.marks.push('^')
        } else {
            Ok(())
        }
    }
}

fn write_spaces(text: &mut String, count: usize) -> Result<(), AllocError> {
    for _space in 0..count {
        text.push(' ')?;
    }
    Ok(())
}
