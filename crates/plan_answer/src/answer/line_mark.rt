//! The number of a line of the plan, before what a row does on it.

use crate::answer::source::Source;
use crate::answer::stand::place_at;
use plan_text::Programs;
use std::alloc::AllocError;

/// What an answer has before each step and each wait.
#[derive(Clone, Copy)]
pub(crate) enum LineMark<'a> {
    Nothing,
    /// The number of the line, by the lines of the places.
    Line(&'a Programs),
}

/// Appends the mark of a row at a node.
pub(crate) fn write_mark(
    text: &mut String,
    source: &Source,
    node: u128,
    row: usize,
) -> Result<(), AllocError> {
    match source.mark {
        LineMark::Nothing => Ok(()),
        LineMark::Line(lines) => {
            let line = lines.origin(row, place_at(source.plan, node, row));
            write!(text, "{line}: ")
        }
    }
}
