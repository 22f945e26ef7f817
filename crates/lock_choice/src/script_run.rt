//! From a reader's script to a writer's answers.
ghost use Rattle.std.specs.Prelude.{IfErr};
ghost use Rattle.std.specs.Io.KnownBytes.{Keeps};
ghost use Rattle.lock_script.specs.Faults.{IsBeforeWriting};

use crate::choice::Choice;
use crate::script_answer::ScriptAnswer;
use lock_script::ReplayFault;
use script_text::{put, read_script};
use std::alloc::Global;
use std::clone::Clone;
use std::io::{Read, Write};
use std::sync::Wait;
use std::time::Clock;

/// Reads a script to its end, runs it, and writes the answers. Returns the line on a difference, if there is one.
///
/// # Errors
///
/// In this order: a fault of reading, the first bad line, no memory for the run, a fault of writing.
pub fn replay<W: Wait + Clock + Clone + Drop, I: Read, O: Write>(
    alloc: Global,
    waiter: W,
    choice: Choice,
    reader: &mut I,
    writer: &mut O,
) -> Result<Option<String>, ReplayFault>
    ensures unwritten { IfErr result (λ fault.
        IsBeforeWriting fault → Keeps (O.contents writer.old) (O.contents writer.new)) }
{
    let bytes = read_script(alloc, reader)?;
    let answer = ScriptAnswer::of_script(alloc, waiter, choice, bytes.as_slice())?;
    put(answer.text.as_str(), writer)?;
    Ok(answer.difference)
}
