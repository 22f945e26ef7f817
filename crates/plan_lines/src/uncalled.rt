//! Lines of functions that no line calls. They are read, and add nothing to the plan.
use crate::forms::Role;
use crate::indexed::line_of;
use crate::line::{Line, Text, Written};
use crate::replacements::Replacements;
use crate::rows::count;
use std::alloc::{AllocError, Global};

/// Makes a line of a function that no line calls, with the words that it may have where the function is called: other words for
/// parameters, the name in a party for an index, and no count.
pub(crate) fn uncalled(
    alloc: Global,
    text: &mut Text,
    parameters: &Replacements,
    line: Line,
) -> Result<Line, AllocError> {
    let tried = with_call(alloc, text, parameters, line)?;
    let replaced = text.replaced(parameters, tried, 1)?;
    let made = line_of(alloc, text, replaced, 0, 1)?;
    let counted = usize::from(has_count(text, made));
    Ok(Line {
        end: made.end.saturating_sub(counted),
        bytes: line.bytes,
        written: Written::Uncalled,
        ..made
    })
}

/// Puts a call in the place of a parameter behind `try`.
fn with_call(
    alloc: Global,
    text: &mut Text,
    parameters: &Replacements,
    line: Line,
) -> Result<Line, AllocError> {
    match text.fields(line) {
        [word, call, ..] if text.has_role(line, Role::Try) && parameters.word(*call).is_some() => {
            let word = *word;
            let call = text.words.number(alloc, "lock")?;
            text.changed(line, &[word, call])
        }
        _ => Ok(line),
    }
}

/// Returns whether a line is a `repeat N`, or starts or joins all copies of a party.
fn has_count(text: &Text, line: Line) -> bool {
    match text.fields(line) {
        [_, turns] => {
            text.has_role(line, Role::Repeat) && count(text.words.text(*turns)).is_some()
        }
        [_, _, star] => {
            (text.has_role(line, Role::Start) || text.has_role(line, Role::Join))
                && text.words.is(*star, "*")
        }
        _ => false,
    }
}
