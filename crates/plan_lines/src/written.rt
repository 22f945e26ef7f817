//! From a plan to its lines.
use crate::channels::with_channels;
use crate::fault::TextFault;
use crate::files::Files;
use crate::functions::written_out;
use crate::gates::with_gates;
use crate::includes::include_all;
use crate::indexed::indexed;
use crate::line::{Line, Text};
use crate::picks::picked;
use crate::repeated::repeated;
use crate::rows::rows;
use crate::scanning::{Scanned, scan};
use crate::sources::Sources;
use crate::spread::spread;
use std::alloc::Global;

/// Scans a plan, which is the first of these texts, and the files that it includes, and writes out the lines that are short for
/// several. Adds the texts of the files.
///
/// # Errors
///
/// `Lines` with one that includes a file which is not read, or which includes itself. Then `TooLong` if the text is longer than a
/// text may be once it is written out. `OutOfMemory` at any time.
pub fn scan_plan<F: Files>(
    alloc: Global,
    sources: &mut Sources,
    files: &mut F,
) -> Result<Scanned, TextFault> {
    // each exit that drops a value of many fields is proved anew, so the work is done on a borrow
    let mut scanned = scan(alloc, sources.text(0))?;
    match write_out(alloc, &mut scanned, sources, files) {
        Ok(()) => Ok(scanned),
        Err(fault) => Err(fault),
    }
}

/// Puts the lines of the files, and those that lines are short for, in their place.
fn write_out<F: Files>(
    alloc: Global,
    scanned: &mut Scanned,
    sources: &mut Sources,
    files: &mut F,
) -> Result<(), TextFault> {
    include_all(alloc, scanned, sources, files)?;
    scanned.lines = expand(alloc, &mut scanned.text, scanned.lines.as_slice())?;
    Ok(())
}

/// Writes out the lines that are short for several: calls of functions, rows, lines for all copies, parties with an index,
/// barriers and latches, channels, picks, and repeated lines.
fn expand(alloc: Global, text: &mut Text, written: &[Line]) -> Result<Vec<Line>, TextFault> {
    let called = written_out(alloc, text, written)?;
    let each = rows(alloc, text, called.as_slice())?;
    let copies = spread(alloc, text, each.as_slice())?;
    let parties = indexed(alloc, text, copies.as_slice())?;
    let gated = with_gates(alloc, text, parties.as_slice())?;
    let channels = with_channels(alloc, text, gated.as_slice())?;
    let picked = picked(alloc, text, channels.as_slice())?;
    repeated(alloc, text, picked.as_slice())
}
