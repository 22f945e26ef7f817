//! Parsing a script.
ghost use Rattle.std.specs.Prelude.{◌≡◌, ◌∷◌, map, IfErr, IfOk, OnOk};
ghost use Rattle.lock_script.specs.Faults.{IsParsingFault};
ghost use Rattle.script_text.specs.Lines.{fields_of, lines_of};
ghost use Rattle.lock_script.specs.Lines.{AreLines};

use crate::fault::ReplayFault;
use crate::line::{ScriptLine, read_line};
use script_text::Part;
use std::alloc::Global;

/// A parsed script: the first line makes a lock or a world, and each further line is a call.
#[derive(Drop)]
pub struct ParsedScript<M, C> {
    pub maker: M,
    pub calls: Vec<C>,
}

/// Parses a script.
///
/// # Errors
///
/// `BadLine` with the number of the first bad line, counted from 1. `OutOfMemory`.
pub fn parse<M: ScriptLine + Drop, C: ScriptLine + Drop>(
    alloc: Global,
    bytes: &[u8],
) -> Result<ParsedScript<M, C>, ReplayFault>
    ensures lines { IfOk result (λ script.
        M.fields script.maker ∷ map C.fields script.calls.items ≡ map fields_of (lines_of bytes.now)) }
    ensures good { OnOk result (AreLines M.makes C.makes (lines_of bytes.now)) }
    ensures fault { IfErr result (IsParsingFault M.makes C.makes (lines_of bytes.now)) }
{
    if bytes.is_empty() {
        return Err(ReplayFault::BadLine(1));
    }
    let (first, mut rest) = Part::of(bytes).first_line();
    let maker = read_line(first).ok_or(ReplayFault::BadLine(1))?;
    let mut calls = Vec::new(alloc);
    let mut number = 2u64;
    while !rest.bytes().is_empty() {
        let (line, after) = rest.first_line();
        let call = read_line(line).ok_or(ReplayFault::BadLine(number))?;
        calls.push(call)?;
        rest = after;
        number += 1;
    }
    Ok(ParsedScript { maker, calls })
}
