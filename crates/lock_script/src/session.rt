//! Running a script of calls on a desk.
ghost use Rattle.std.specs.Prelude.{◌≡◌, [], ◌++◌, ◌↔◌, Err, IfErr, IfOk, OnOk, string_bytes};
ghost use Rattle.lock_modes.specs.Limits.{IsMakerFault};
ghost use Rattle.lock_machine.specs.Steps.{replies};
ghost use Rattle.lock_script.specs.Answers.{reply_lines};
ghost use Rattle.lock_script.specs.Faults.{IsParsingFault};
ghost use Rattle.script_text.specs.Lines.{lines_of};
ghost use Rattle.lock_script.specs.Pair.{meaning};
ghost use Rattle.lock_script.specs.Session.{Answers, HasLimits, IsDeskAnswer, machine_of};
ghost use Rattle.lock_script.specs.Words.{IsCall, IsMaker};

use crate::answer::{Answer, write_answer};
use crate::fault::ReplayFault;
use crate::maker::Maker;
use crate::pair::{Pair, PairOp};
use crate::room::emptied;
use crate::script::{ParsedScript, parse};
use lock_desk::Desk;
use lock_machine::{Call, Reply};
use lock_modes::{Fault, RawState};
use std::alloc::{AllocError, Global};

/// A script of calls.
pub type DeskScript = ParsedScript<Maker, Call<PairOp>>;

/// How many calls are made before their replies are written.
const BLOCK: usize = 256;

/// Runs a script of calls on a desk over the raw state `R`, and returns its answers.
pub fn desk_answers<R: RawState>(alloc: Global, script: Vec<u8>) -> Result<String, ReplayFault>
    ensures answers { IfOk result (λ text. IsDeskAnswer script.items (string_bytes text)) }
    ensures fault { IfErr result (IsParsingFault IsMaker IsCall (lines_of script.items)) }
{
    let parsed: DeskScript = parse(alloc, script.as_slice())?;
    answers_to::<R>(alloc, &parsed, emptied(script)).map_err(|_| ReplayFault::OutOfMemory)
}

/// Appends the answers to a maker and its calls, a line each. If the maker is refused, that is the only answer.
fn answers_to<R: RawState>(
    alloc: Global,
    script: &DeskScript,
    mut text: String,
) -> Result<String, Fault>
    requires { string_bytes text ≡ [] }
    ensures { IfOk result (λ text. Answers script.now.maker script.now.calls.items (string_bytes text)) }
{
    match make_desk::<R>(alloc, script.maker) {
        Ok(desk) => {
            write_answer(&mut text, Answer::Reply(Reply::Done))?;
            write_calls(alloc, &mut text, desk, script.calls.as_slice())?;
        }
        Err(Fault::BadLimits) => {
            write_answer(&mut text, Answer::Reply(Reply::Refused(Fault::BadLimits)))?;
        }
        Err(fault) => return Err(fault),
    }
    Ok(text)
}

/// Appends the replies of a desk, block by block. Within a block no call waits for the text of the reply before it, so
/// the processor can look up several guards at a time.
fn write_calls<R: RawState>(
    alloc: Global,
    text: &mut String,
    mut desk: Desk<R, Pair>,
    calls: &[Call<PairOp>],
) -> Result<(), Fault>
    ensures { OnOk result
        (string_bytes text.new ≡ string_bytes text.old ++ reply_lines (replies meaning desk calls.now)) }
{
    let mut rest = calls;
    while !rest.is_empty() {
        let (block, after) = rest.split_at(rest.len().min(BLOCK));
        let replies = desk.run(alloc, block)?;
        write_replies(text, replies.as_slice())?;
        rest = after;
    }
    Ok(())
}

/// Appends replies, a line each.
fn write_replies(text: &mut String, replies: &[Reply<i64>]) -> Result<(), AllocError>
    ensures { OnOk result (string_bytes text.new ≡ string_bytes text.old ++ reply_lines replies.now) }
{
    for reply in replies {
        write_answer(text, Answer::Reply(*reply))?;
    }
    Ok(())
}

/// Makes the desk of a script.
pub fn make_desk<R: RawState>(alloc: Global, maker: Maker) -> Result<Desk<R, Pair>, Fault>
    ensures limits { (result ≡ Err Fault.BadLimits) ↔ (HasLimits maker → ⊥) }
    ensures fault { IfErr result IsMakerFault }
    ensures made { IfOk result (λ desk. desk ≡ machine_of maker) }
{
    match maker {
        Maker::Mutex(places, pair) => Desk::mutex(alloc, places, pair),
        Maker::RwLock(places, readers, pair) => Desk::rwlock(alloc, places, readers, pair),
        Maker::Reentrant(places, levels, pair) => Desk::reentrant(alloc, places, levels, pair),
    }
}
