//! The line on a difference.
ghost use Rattle.std.specs.Prelude.{◌≡◌, IfOk, string_bytes};
ghost use Rattle.lock_script.specs.Answers.{reply_text};
ghost use Rattle.lock_choice.specs.DifferenceText.{difference_text};

use lock_conform::Difference;
use lock_machine::Reply;
use lock_script::{Answer, write_answer};
use std::alloc::{AllocError, Global};
use std::str;

/// Returns a line with the number and the text of the script's line, and both answers.
pub fn difference_line(
    alloc: Global,
    line: &str,
    difference: &Difference,
) -> Result<String, AllocError>
    ensures { IfOk result (λ text. string_bytes text ≡ difference_text line.now difference.now) }
{
    let found = answer_text(alloc, difference.found)?;
    let wanted = answer_text(alloc, difference.wanted)?;
    format!(in alloc;
        "line {}, {}: the lock answers {}, the Desk {}",
        difference.line,
        line,
        found.as_str(),
        wanted.as_str()
    )
}

/// Returns the text of a line, counted from 1.
pub fn script_line(bytes: &[u8], number: u64) -> &str {
    let Ok(text) = str::from_utf8(bytes) else {
        return "";
    };
    let place = number.saturating_sub(1) as usize;
    text.lines().nth(place).unwrap_or("")
}

/// Returns the text of an answer, without its line feed.
fn answer_text(alloc: Global, reply: Reply<i64>) -> Result<String, AllocError>
    ensures { IfOk result (λ text. string_bytes text ≡ reply_text reply) }
{
    let mut text = String::new(alloc);
    write_answer(&mut text, Answer::Reply(reply))?;
    text.pop();
    Ok(text)
}
