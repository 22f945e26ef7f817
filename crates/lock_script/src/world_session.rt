//! Running a script of steps on a world.
ghost use Rattle.std.specs.Prelude.{◌≡◌, [], ◌++◌, IfErr, IfOk, OnOk, string_bytes};
ghost use Rattle.lock_script.specs.Faults.{IsParsingFault};
ghost use Rattle.lock_script.specs.Answers.{answer_lines};
ghost use Rattle.script_text.specs.Lines.{lines_of};
ghost use Rattle.lock_script.specs.WorldLines.{IsWorldCall, IsWorldMaker};
ghost use Rattle.lock_script.specs.WorldSession.{IsWorldAnswer, WorldAnswers, all_answers, step_answer, call_answer, count_answer, truth_answer, world_after_call};

use crate::answer::{Answer, write_answer};
use crate::fault::ReplayFault;
use crate::room::emptied;
use crate::script::{ParsedScript, parse};
use crate::world_call::WorldCall;
use crate::world_maker::WorldMaker;
use lock_machine::Reply;
use lock_modes::Fault;
use lock_states::world::World;
use lock_word::Outcome;
use std::alloc::{AllocError, Global};

/// A script of steps.
type WorldScript = ParsedScript<WorldMaker, WorldCall>;

/// Runs a script of steps, and returns its answers.
pub fn world_answers(alloc: Global, script: Vec<u8>) -> Result<String, ReplayFault>
    ensures answers { IfOk result (λ text. IsWorldAnswer script.items (string_bytes text)) }
    ensures fault { IfErr result (IsParsingFault IsWorldMaker IsWorldCall (lines_of script.items)) }
{
    let parsed: WorldScript = parse(alloc, script.as_slice())?;
    answers_to(alloc, &parsed, emptied(script)).map_err(|_| ReplayFault::OutOfMemory)
}

/// Appends the answers to a maker and its lines, a line each. If the maker is refused, that is the only answer.
fn answers_to(alloc: Global, script: &WorldScript, mut text: String) -> Result<String, Fault>
    requires { string_bytes text ≡ [] }
    ensures { IfOk result (λ text. WorldAnswers script.now.maker script.now.calls.items (string_bytes text)) }
{
    match World::new(alloc, script.maker.parties, script.maker.readers) {
        Ok(world) => {
            write_answer(&mut text, Answer::Reply(Reply::Done))?;
            write_calls(&mut text, world, script.calls.as_slice())?;
        }
        Err(Fault::BadLimits) => {
            write_answer(&mut text, Answer::Reply(Reply::Refused(Fault::BadLimits)))?;
        }
        Err(fault) => return Err(fault),
    }
    Ok(text)
}

/// Appends the answers of a world.
fn write_calls(text: &mut String, mut world: World, calls: &[WorldCall]) -> Result<(), AllocError>
    ensures { OnOk result
        (string_bytes text.new ≡ string_bytes text.old ++ answer_lines (all_answers world calls.now)) }
{
    for call in calls {
        let answer = ask(&mut world, *call);
        write_answer(text, answer)?;
    }
    Ok(())
}

/// Makes a step, or answers a question.
fn ask(world: &mut World, call: WorldCall) -> Answer
    ensures answer { result ≡ call_answer world.old call }
    ensures left { world.new ≡ world_after_call world.old call }
{
    match call {
        WorldCall::Step(step) => step_answer(world.step(step)),
        WorldCall::Word => Answer::Reply(Reply::Count(world.word())),
        WorldCall::Wins(party) => count_answer(world.wins(party)),
        WorldCall::Fails(party) => count_answer(world.fails(party)),
        WorldCall::Announced(party) => truth_answer(world.announced(party)),
    }
}

/// Makes the answer of an outcome.
fn step_answer(outcome: Outcome) -> Answer
    ensures { result ≡ step_answer outcome }
{
    match outcome {
        Outcome::Loaded(word) => Answer::Loaded(word),
        Outcome::Done => Answer::Made,
        Outcome::NotAdmitted => Answer::NotAdmitted,
        Outcome::Changed => Answer::Changed,
        Outcome::Refused(fault) => Answer::Reply(Reply::Refused(fault)),
    }
}

/// Makes the answer of a count, or of its refusal.
fn count_answer(count: Result<u64, Fault>) -> Answer
    ensures { result ≡ count_answer count }
{
    match count {
        Ok(number) => Answer::Reply(Reply::Count(number)),
        Err(fault) => Answer::Reply(Reply::Refused(fault)),
    }
}

/// Makes the answer of a yes or no, or of its refusal.
fn truth_answer(answer: Result<bool, Fault>) -> Answer
    ensures { result ≡ truth_answer answer }
{
    match answer {
        Ok(is) => Answer::Reply(Reply::Bool(is)),
        Err(fault) => Answer::Reply(Reply::Refused(fault)),
    }
}
