//! Writing an answer.
ghost use Rattle.std.specs.Prelude.{◌≡◌, ◌≤◌, ◌<◌, length, take, IfErr, IfOk, OnErr, OnOk};
ghost use Rattle.std.specs.Io.KnownBytes.{Appends, Keeps};
ghost use Rattle.script_text.specs.Streams.{AppendsFront};

use crate::fault::StreamFault;
use std::io::{ErrorKind, Write};

/// Writes the whole text, and flushes.
pub fn put<W: Write>(text: &str, writer: &mut W) -> Result<(), StreamFault>
    ensures written { OnOk result (Appends (W.contents writer.old) (W.contents writer.new) text.now) }
    ensures begun { OnErr result (AppendsFront (W.contents writer.old) (W.contents writer.new) text.now) }
    ensures fault { IfErr result (λ fault. fault ≡ StreamFault.OutputFailed) }
{
    let bytes = text.as_bytes();
    let mut written = 0;
    for _ in 0..u64::MAX {
        if written == bytes.len() {
            return writer.flush().map_err(|_| StreamFault::OutputFailed);
        }
        written += write_once(writer, &bytes[written..])?;
    }
    Err(StreamFault::OutputFailed)
}

/// Writes once, and again after an interrupt.
fn write_once<W: Write>(writer: &mut W, bytes: &[u8]) -> Result<usize, StreamFault>
    ensures bound { IfOk result (λ count. (0 < count) × (count ≤ length bytes.now)) }
    ensures written { IfOk result (λ count.
        Appends (W.contents writer.old) (W.contents writer.new) (take count bytes.now)) }
    ensures kept { OnErr result (Keeps (W.contents writer.old) (W.contents writer.new)) }
    ensures fault { IfErr result (λ fault. fault ≡ StreamFault.OutputFailed) }
{
    for _ in 0..u64::MAX {
        match writer.write(bytes) {
            Ok(0) => return Err(StreamFault::OutputFailed),
            Ok(count) => return Ok(count),
            Err(fault) => {
                if fault.kind() != ErrorKind::Interrupted {
                    return Err(StreamFault::OutputFailed);
                }
            }
        }
    }
    Err(StreamFault::OutputFailed)
}
