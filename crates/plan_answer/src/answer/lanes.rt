//! Drawings: a column for each party.

use crate::answer::cell::{Row, write_cell};
use crate::answer::run::Run;
use crate::answer::source::Source;
use std::alloc::AllocError;

/// The width of the narrowest column, without the space after it.
const NARROWEST: usize = 19;

/// Appends an empty line and the drawing of a run.
pub(crate) fn write_drawing(
    text: &mut String,
    source: &Source,
    run: &Run,
) -> Result<(), AllocError> {
    let mut rows = Vec::new(source.alloc);
    rows.push(Row::Parties)?;
    for made in &run.steps {
        rows.push(Row::After(made.after, made.step.party))?;
    }
    rows.push(Row::Stop(run.last))?;
    text.push('\n')?;
    write_rows(text, source, rows.as_slice())
}

/// Appends rows, in columns as wide as their widest cells.
fn write_rows(text: &mut String, source: &Source, rows: &[Row]) -> Result<(), AllocError> {
    let widths = widths_of(source, rows)?;
    for row in rows {
        write_row(text, source, widths.as_slice(), *row)?;
    }
    Ok(())
}

/// Returns the widths of the columns.
fn widths_of(source: &Source, rows: &[Row]) -> Result<Vec<usize>, AllocError> {
    let mut widths = Vec::new(source.alloc);
    for party in 0..source.names.parties() {
        widths.push(width_of(source, rows, party)?)?;
    }
    Ok(widths)
}

/// Returns the width of the column of a party.
fn width_of(source: &Source, rows: &[Row], party: usize) -> Result<usize, AllocError> {
    let mut width = NARROWEST;
    for row in rows {
        let mut cell = String::new(source.alloc);
        write_cell(&mut cell, source, *row, party)?;
        width = width.max(cell.len());
    }
    Ok(width)
}

/// Appends a row, in columns of these widths.
fn write_row(
    text: &mut String,
    source: &Source,
    widths: &[usize],
    row: Row,
) -> Result<(), AllocError> {
    let Some(last) = source.names.parties().checked_sub(1) else {
        return text.push('\n');
    };
    for party in 0..last {
        let width = width_at(widths, party);
        write_padded(text, source, width, row, party)?;
    }
    write_cell(text, source, row, last)?;
    text.push('\n')?;
    Ok(())
}

/// Returns the width of a column.
fn width_at(widths: &[usize], party: usize) -> usize {
    widths.get(party).copied().unwrap_or(0)
}

/// Appends the cell of a party, spaces up to the width of its column, and a space.
fn write_padded(
    text: &mut String,
    source: &Source,
    width: usize,
    row: Row,
    party: usize,
) -> Result<(), AllocError> {
    let start = text.len();
    write_cell(text, source, row, party)?;
    let spaces = width.saturating_sub(text.len().saturating_sub(start));
    text.push(' ')?;
    write_spaces(text, spaces)
}

/// Appends spaces.
fn write_spaces(text: &mut String, count: usize) -> Result<(), AllocError> {
    for _space in 0..count {
        text.push(' ')?;
    }
    Ok(())
}
