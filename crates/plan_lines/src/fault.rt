//! Why a text says no plan.
use crate::origin::Origin;
use std::alloc::{AllocError, AllocFailed, Global};

/// Why a text says no plan.
#[derive(Debug, Drop)]
pub enum TextFault {
    /// Lines that are wrong, in the order in which they are told.
    Lines(Vec<BadLine>),
    TooLarge,
    TooLong,
    OutOfMemory,
}

/// A line that is wrong. It says nothing of the line's text.
#[derive(Debug, Drop)]
pub struct BadLine {
    /// The name of the included file that has the line, or an empty one for a line of the plan itself.
    pub file: String,
    /// The number of the line, from 1.
    pub line: u64,
    /// Which word of the line is wrong, from 0.
    pub word: usize,
    pub why: String,
}

impl BadLine {
    /// Makes the line from which something comes, of which this word is wrong.
    pub fn of(
        alloc: Global,
        origin: Origin,
        word: usize,
        why: String,
    ) -> Result<BadLine, AllocError> {
        Ok(BadLine {
            file: String::from_str(alloc, origin.file())?,
            line: origin.line(),
            word,
            why,
        })
    }
}

impl TextFault {
    /// Makes the fault of the line from which something comes, of which this word is wrong.
    pub fn of(
        alloc: Global,
        origin: Origin,
        word: usize,
        why: String,
    ) -> Result<TextFault, AllocError> {
        let mut told = Vec::new(alloc);
        told.push(BadLine::of(alloc, origin, word, why)?)?;
        Ok(TextFault::Lines(told))
    }
}

impl From<AllocError> for TextFault {
    fn from(_fault: AllocError) -> TextFault {
        TextFault::OutOfMemory
    }
}

impl<T: Drop> From<AllocFailed<T>> for TextFault {
    fn from(_fault: AllocFailed<T>) -> TextFault {
        TextFault::OutOfMemory
    }
}
