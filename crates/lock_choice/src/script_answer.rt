//! The answer to a script.
ghost use Rattle.std.specs.Prelude.{◌≡◌, [], ◌∷◌, IfOk, string_bytes};
ghost use Rattle.lock_script.specs.Answers.{reply_lines};

use crate::choice::Choice;
use crate::difference_line::{difference_line, script_line};
use crate::over_raw::run_chosen;
use lock_conform::write_report;
use lock_machine::Reply;
use lock_modes::Fault;
use lock_script::{Answer, DeskScript, ReplayFault, parse, write_answer};
use std::alloc::{AllocError, Global};
use std::clone::Clone;
use std::sync::Wait;
use std::time::Clock;

/// The answer to a script: its text, and a line on the difference if there is one.
#[derive(Drop)]
pub struct ScriptAnswer {
    pub text: String,
    pub difference: Option<String>,
}

impl ScriptAnswer {
    /// Runs a script over the raw lock that is chosen.
    pub fn of_script<W: Wait + Clock + Clone + Drop>(
        alloc: Global,
        waiter: W,
        choice: Choice,
        bytes: &[u8],
    ) -> Result<ScriptAnswer, ReplayFault> {
        let script: DeskScript = parse(alloc, bytes)?;
        match run_chosen(alloc, waiter, choice.raw, choice.manner, script) {
            Ok(report) => {
                let text = write_report(alloc, &report, choice.prints_calls)?;
                let difference = match &report.difference {
                    Some(difference) => {
                        let line = script_line(bytes, difference.line);
                        Some(difference_line(alloc, line, difference)?)
                    }
                    None => None,
                };
                Ok(ScriptAnswer { text, difference })
            }
            Err(Fault::BadLimits) => {
                let text = refusal(alloc)?;
                Ok(ScriptAnswer {
                    text,
                    difference: None,
                })
            }
            Err(_) => Err(ReplayFault::OutOfMemory),
        }
    }
}

/// Returns the refusal of a maker.
fn refusal(alloc: Global) -> Result<String, AllocError>
    ensures { IfOk result (λ text. string_bytes text ≡ reply_lines (Reply.Refused Fault.BadLimits ∷ [])) }
{
    let mut text = String::new(alloc);
    write_answer(&mut text, Answer::Reply(Reply::Refused(Fault::BadLimits)))?;
    Ok(text)
}
