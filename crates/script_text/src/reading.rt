//! Reading a script.
ghost use Rattle.std.specs.Prelude.{◌≡◌, ◌≤◌, ◌<◌, ◌++◌, length, take, IfErr, IfOk, OnErr, OnOk, vec_len};
ghost use Rattle.std.specs.Io.KnownBytes.{Consumes, IsAtEnd, Keeps};
ghost use Rattle.script_text.specs.Streams.{IsReadingFault};

use crate::fault::StreamFault;
use std::alloc::Global;
use std::io::{ErrorKind, Read};

/// The largest size of a script, in bytes.
pub const SCRIPT_LIMIT: usize = 1_048_576;

/// The largest size of one read, in bytes.
const CHUNK: usize = 65_536;

/// Reads to the end, or to the first byte past the limit.
pub fn read_script<R: Read>(alloc: Global, reader: &mut R) -> Result<Vec<u8>, StreamFault>
    ensures read { IfOk result (λ script.
        Consumes (R.remaining reader.old) (R.remaining reader.new) script.items) }
    ensures ended { OnOk result (IsAtEnd (R.remaining reader.new)) }
    ensures bounded { IfOk result (λ script. vec_len script ≤ 1048576) }
    ensures fault { IfErr result (IsReadingFault (R.remaining reader.old) (R.remaining reader.new)) }
{
    let mut script = Vec::new(alloc);
    let mut chunk = [0u8; CHUNK];
    for _ in 0..u64::MAX {
        let room = (SCRIPT_LIMIT + 1 - script.len()).min(CHUNK);
        let count = read_once(reader, &mut chunk[..room])?;
        if count == 0 {
            return Ok(script);
        }
        keep(&mut script, &chunk[..count])?;
        if script.len() > SCRIPT_LIMIT {
            return Err(StreamFault::TooLong);
        }
    }
    Err(StreamFault::InputFailed)
}

/// Reads once, and again after an interrupt. It reads nothing only at the end.
fn read_once<R: Read>(reader: &mut R, chunk: &mut [u8]) -> Result<usize, StreamFault>
    requires { 0 < length chunk.old }
    ensures bound { IfOk result (λ count. count ≤ length chunk.new) }
    ensures read { IfOk result (λ count.
        Consumes (R.remaining reader.old) (R.remaining reader.new) (take count chunk.new)) }
    ensures end { IfOk result (λ count. count ≡ 0 → IsAtEnd (R.remaining reader.new)) }
    ensures kept { OnErr result (Keeps (R.remaining reader.old) (R.remaining reader.new)) }
    ensures fault { IfErr result (λ fault. fault ≡ StreamFault.InputFailed) }
{
    for _ in 0..u64::MAX {
        match reader.read(chunk) {
            Ok(count) => return Ok(count),
            Err(fault) => {
                if fault.kind() != ErrorKind::Interrupted {
                    return Err(StreamFault::InputFailed);
                }
            }
        }
    }
    Err(StreamFault::InputFailed)
}

/// Appends what was read.
fn keep(script: &mut Vec<u8>, bytes: &[u8]) -> Result<(), StreamFault>
    ensures kept { OnOk result (script.new.items ≡ script.old.items ++ bytes.now) }
    ensures fault { IfErr result (λ fault. fault ≡ StreamFault.OutOfMemory) }
{
    script.extend_from_slice(bytes)?;
    Ok(())
}
