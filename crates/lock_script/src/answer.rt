//! Answers as text.
ghost use Rattle.std.specs.Prelude.{◌≡◌, ◌++◌, OnOk, codes, string_bytes};
ghost use Rattle.lock_script.specs.Answers.{answer_line};

use itoa::{Buffer, Integer};
use lock_machine::Reply;
use std::alloc::AllocError;

/// The answer to one line of a script: a reply, or the outcome of an atomic step.
#[derive(Clone, Copy)]
pub enum Answer {
    Reply(Reply<i64>),
    Loaded(u64),
    Made,
    NotAdmitted,
    Changed,
}

/// Appends the line of an answer.
pub fn write_answer(text: &mut String, answer: Answer) -> Result<(), AllocError>
    ensures { OnOk result (string_bytes text.new ≡ string_bytes text.old ++ answer_line answer) }
{
    match answer {
        Answer::Reply(Reply::Guard(number)) => write_number(text, "guard ", number),
        Answer::Reply(Reply::NoGuard) => text.push_str("none\n"),
        Answer::Reply(Reply::Done) => text.push_str("ok\n"),
        Answer::Reply(Reply::Answer(item)) => write_number(text, "value ", item),
        Answer::Reply(Reply::Bool(true)) => text.push_str("yes\n"),
        Answer::Reply(Reply::Bool(false)) => text.push_str("no\n"),
        Answer::Reply(Reply::Count(number)) => write_number(text, "count ", number),
        Answer::Reply(Reply::Refused(fault)) => write_number(text, "refused ", fault.number()),
        Answer::Loaded(word) => write_number(text, "loaded ", word),
        Answer::Made => text.push_str("done\n"),
        Answer::NotAdmitted => text.push_str("not admitted\n"),
        Answer::Changed => text.push_str("changed\n"),
    }
}

/// Appends a line of these words and a number.
fn write_number<N: Integer>(text: &mut String, words: &str, number: N) -> Result<(), AllocError>
    ensures { OnOk result (string_bytes text.new
        ≡ string_bytes text.old ++ words.now ++ N.text number ++ codes "\n") }
{
    text.push_str(words)?;
    text.push_str(Buffer::new().format(number))?;
    text.push('\n')
}
