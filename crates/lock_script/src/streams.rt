//! From a reader's script to a writer's answers.
ghost use Rattle.std.specs.Prelude.{IfErr, IfOk, OnOk, string_bytes};
ghost use Rattle.std.specs.Io.KnownBytes.{Keeps};
ghost use Rattle.lock_script.specs.Faults.{IsBeforeWriting, IsParsingFault};
ghost use Rattle.script_text.specs.Lines.{lines_of};
ghost use Rattle.script_text.specs.Streams.{ReadsScript};
ghost use Rattle.lock_script.specs.Replays.{AppendsAnswer, IsAnswer, IsFirst, IsFurther, ExplainsFault};

use crate::choice::Which;
use crate::fault::ReplayFault;
use crate::session::desk_answers;
use crate::world_session::world_answers;
use lock_states::table::TokenTable;
use lock_states::word::PackedWord;
use script_text::{put, read_script};
use std::alloc::Global;
use std::io::{Read, Write};

/// Reads a script to its end, makes all its answers, and then writes them, a line each.
///
/// # Errors
///
/// In this order: a fault of reading, the first bad line, no memory for the run, a fault of writing. If the reader does
/// not say what it has ahead, the clauses speak only of the bytes that it gave.
pub fn replay<R: Read, W: Write>(
    alloc: Global,
    which: Which,
    reader: &mut R,
    writer: &mut W,
) -> Result<(), ReplayFault>
    ensures answered { OnOk result (ReadsScript (R.remaining reader.old) (R.remaining reader.new)
        (λ script. AppendsAnswer which script (W.contents writer.old) (W.contents writer.new))) }
    ensures told { IfErr result (ExplainsFault which
        (R.remaining reader.old) (R.remaining reader.new) (W.contents writer.old) (W.contents writer.new)) }
    ensures unwritten { IfErr result (λ fault.
        IsBeforeWriting fault → Keeps (W.contents writer.old) (W.contents writer.new)) }
{
    let script = read_script(alloc, reader)?;
    let text = answers(alloc, which, script)?;
    put(text.as_str(), writer)?;
    Ok(())
}

/// Returns the text of all answers to a script. It reuses the script's memory.
///
/// # Errors
///
/// `BadLine` with the number of the first bad line, or `OutOfMemory`.
pub fn answers(alloc: Global, which: Which, script: Vec<u8>) -> Result<String, ReplayFault>
    ensures answers { IfOk result (λ text. IsAnswer which script.items (string_bytes text)) }
    ensures fault { IfErr result (IsParsingFault (IsFirst which) (IsFurther which) (lines_of script.items)) }
{
    match which {
        Which::Table => desk_answers::<TokenTable>(alloc, script),
        Which::Word => desk_answers::<PackedWord>(alloc, script),
        Which::Steps => world_answers(alloc, script),
    }
}
