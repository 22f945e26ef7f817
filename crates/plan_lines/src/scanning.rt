//! From bytes to lines of words.
use crate::line::{Line, Text};
use crate::origin::LineAt;
use crate::spot::part;
use std::alloc::{AllocError, Global};
use std::mem::replace;

/// The lines with words of a text.
#[derive(Drop)]
pub struct Scanned {
    pub text: Text,
    pub lines: Vec<Line>,
    /// The number of the next line: at the end of a text that of the line after the last.
    pub number: u64,
    /// Where the words of the line begin.
    first: usize,
    /// Where the word begins that is being scanned.
    start: Option<usize>,
    is_comment: bool,
    is_utf8: bool,
    /// The number of the included file, from 1, or 0 for the plan's own text.
    file: usize,
}

/// Scans a text. Blanks separate words, a line feed ends a line, and a comment reaches from `#` to the end of its line.
pub fn scan(alloc: Global, bytes: &[u8]) -> Result<Scanned, AllocError> {
    let mut scanned = Scanned::new(alloc);
    match scanned.read_first(alloc, bytes) {
        Ok(()) => Ok(scanned),
        Err(fault) => Err(fault),
    }
}

impl Scanned {
    fn new(alloc: Global) -> Scanned {
        Scanned {
            text: Text::new(alloc),
            lines: Vec::new(alloc),
            number: 1,
            first: 0,
            start: None,
            is_comment: false,
            is_utf8: true,
            file: 0,
        }
    }

    fn read_first(&mut self, alloc: Global, bytes: &[u8]) -> Result<(), AllocError> {
        self.text.words.add_forms(alloc)?;
        self.read(alloc, bytes)
    }

    /// Adds the lines of an included file with this number. The number of the next line stays that of the plan's own text.
    pub(crate) fn add_file(
        &mut self,
        alloc: Global,
        file: usize,
        bytes: &[u8],
    ) -> Result<(), AllocError> {
        let number = replace(&mut self.number, 1);
        self.file = file;
        self.read(alloc, bytes)?;
        self.number = number;
        Ok(())
    }

    fn read(&mut self, alloc: Global, bytes: &[u8]) -> Result<(), AllocError> {
        for (at, byte) in bytes.iter().enumerate() {
            self.step(alloc, bytes, at, *byte)?;
        }
        self.end_word(alloc, bytes, bytes.len())?;
        match bytes.last() {
            None | Some(b'\n') => Ok(()),
            Some(_) => self.end_line(),
        }
    }

    fn step(&mut self, alloc: Global, bytes: &[u8], at: usize, byte: u8) -> Result<(), AllocError> {
        match byte {
            b'\n' => {
                self.end_word(alloc, bytes, at)?;
                self.end_line()?;
            }
            b'#' => {
                self.end_word(alloc, bytes, at)?;
                self.is_comment = true;
            }
            b' ' | b'\t' | b'\r' => self.end_word(alloc, bytes, at)?,
            _ => {
                if !self.is_comment && self.start.is_none() {
                    self.start = Some(at);
                }
            }
        }
        Ok(())
    }

    /// Adds the word that ends here, if there is one.
    fn end_word(&mut self, alloc: Global, bytes: &[u8], end: usize) -> Result<(), AllocError> {
        let Some(start) = self.start else {
            return Ok(());
        };
        self.start = None;
        let bytes = part(bytes, start, end);
        let word = match str::from_utf8(bytes) {
            Ok(text) => self.text.words.number(alloc, text)?,
            Err(_) => {
                self.is_utf8 = false;
                let text = ascii(alloc, bytes)?;
                self.text.words.number(alloc, text.as_str())?
            }
        };
        self.text.push(word)
    }

    /// Adds the line that ends here, if it has words.
    fn end_line(&mut self) -> Result<(), AllocError> {
        if self.first < self.text.next() {
            let at = LineAt {
                file: self.file,
                ..LineAt::alone(self.number)
            };
            let line = self.text.line(at, self.first, self.is_utf8);
            self.lines.push(line)?;
        }
        self.number = self.number.saturating_add(1);
        self.first = self.text.next();
        self.is_comment = false;
        self.is_utf8 = true;
        Ok(())
    }
}

/// Makes a word as long as these bytes, with a `?` in the place of each that is not ASCII.
fn ascii(alloc: Global, bytes: &[u8]) -> Result<String, AllocError> {
    let mut text = String::new(alloc);
    for byte in bytes {
        text.push(if byte.is_ascii() {
            char::from(*byte)
        } else {
            '?'
        })?;
    }
    Ok(text)
}
