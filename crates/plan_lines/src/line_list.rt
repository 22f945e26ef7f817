//! Lines that are no longer than a text.
use crate::fault::TextFault;
use crate::line::Line;
use script_text::SCRIPT_LIMIT;
use std::alloc::Global;

/// Lines, which together are no longer than a text may be.
#[derive(Drop)]
pub(crate) struct LineList {
    pub(crate) lines: Vec<Line>,
    pub(crate) bytes: usize,
}

impl LineList {
    pub(crate) fn new(alloc: Global) -> LineList {
        LineList {
            lines: Vec::new(alloc),
            bytes: 0,
        }
    }

    /// Adds a line.
    pub(crate) fn push(&mut self, line: Line) -> Result<(), TextFault> {
        self.count(line)?;
        self.lines.push(line)?;
        Ok(())
    }

    /// Counts the bytes of a line for which others stand.
    pub(crate) fn count(&mut self, line: Line) -> Result<(), TextFault> {
        self.bytes = self.bytes.saturating_add(line.bytes);
        // The last line needs no line feed.
        if self.bytes > SCRIPT_LIMIT + 1 {
            return Err(TextFault::TooLong);
        }
        Ok(())
    }
}
