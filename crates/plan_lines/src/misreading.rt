//! Why a line is not in the format.
use crate::counter::CounterKind;
use crate::forms::{FORMS, Form, Role};
use crate::line_fault::LineFault;
use crate::reading::{begins_by_digit, limit, number, parties, tried_call};
use crate::words::Words;
use lock_modes::Kind;
use script_text::unsigned;
use std::alloc::{AllocError, Global};
use strsim::levenshtein;

/// The longest word for which a like one is looked for, in bytes. No word of the format has so many.
const LONGEST: usize = 100;

/// The least distance at which two words are not alike.
const UNLIKE: usize = 3;

/// Explains a line of these words that is not in the format.
pub fn misread(alloc: Global, words: &Words, fields: &[usize]) -> Result<LineFault, AllocError> {
    let [word, rest @ ..] = fields else {
        return Ok(LineFault::NothingSaid);
    };
    let Some(form) = words.form(*word) else {
        return unknown_word(alloc, words, *word);
    };
    if let (Role::Try, [call, _, ..]) = (form.2, rest) {
        if tried_call(words, *call).is_none() {
            return match words.form(*call) {
                Some(Form(_, _, Role::Move(..))) => Ok(LineFault::Form(form)),
                Some(_) => Ok(LineFault::NotTried(*call)),
                None => unknown_word(alloc, words, *call),
            };
        }
    }
    Ok(wrong_field(words, *word, form.2, rest).unwrap_or(LineFault::Form(form)))
}

/// Returns the form of a bad line of these words: of its first word, or of the one that is like it.
pub fn meant(words: &Words, fields: &[usize], fault: LineFault) -> Option<Form> {
    let first = fields.first().copied()?;
    match (words.form(first), fault) {
        (Some(form), _) => Some(form),
        (None, LineFault::Misspelt(_, near)) => {
            FORMS.iter().find(|form| form.0 == near).copied()
        }
        _ => None,
    }
}

/// Explains a word that no line begins with, by the first one that is most like it.
fn unknown_word(alloc: Global, words: &Words, word: usize) -> Result<LineFault, AllocError> {
    let text = words.text(word);
    let mut fault = LineFault::UnknownWord(word);
    if text.len() > LONGEST {
        return Ok(fault);
    }
    let mut least = UNLIKE;
    for form in &FORMS {
        let distance = levenshtein(alloc, text, form.0)?;
        if distance < least {
            fault = LineFault::Misspelt(word, form.0);
            least = distance;
        }
    }
    Ok(fault)
}

/// Explains the first field after a word that is wrong by itself.
fn wrong_field(words: &Words, word: usize, role: Role, fields: &[usize]) -> Option<LineFault> {
    let [name, last @ ..] = fields else {
        return None;
    };
    let name = *name;
    match role {
        Role::Lock(_) | Role::Counter(_) | Role::Condvar | Role::Barrier | Role::Latch => {
            if words.is_name(name) {
                return wrong_number(words, word, role, last);
            }
            Some(if has_bracket(words, name) {
                LineFault::NoRow(name)
            } else {
                LineFault::NoName(name)
            })
        }
        Role::Include => None,
        Role::Set if words.is_name(name) => None,
        Role::Define if !words.is_name(name) => Some(LineFault::NoName(name)),
        Role::Party(_) if !words.is_name(name) => Some(LineFault::NoName(name)),
        Role::Party(_) => match last {
            [number] if parties(words.text(*number)).is_none() => Some(LineFault::NoCount(*number)),
            _ => None,
        },
        Role::Start | Role::Join => match last {
            [star] if words.is(*star, "*") && words.is_name(name) => {
                Some(LineFault::NoCopies(name))
            }
            _ => wrong_name(words, fields),
        },
        Role::Repeat if last.is_empty() && begins_by_digit(words.text(name)) => {
            Some(wrong_turns(words, name))
        }
        _ => wrong_name(words, fields),
    }
}

/// Explains the number behind a name that a line declares, if it is wrong.
fn wrong_number(words: &Words, word: usize, role: Role, last: &[usize]) -> Option<LineFault> {
    let number = match last {
        [number, ..] => words.text(*number),
        [] => "",
    };
    match role {
        Role::Lock(Kind::Mutex) | Role::Counter(CounterKind::Flag) | Role::Condvar => None,
        Role::Lock(Kind::RwLock) if !begins_by_digit(number) => None,
        Role::Lock(_) => limit(number).is_none().then_some(LineFault::NoLimit(word)),
        _ => {
            let least = usize::from(role != Role::Counter(CounterKind::Channel));
            let is_wrong = self::number(number).is_none();
            is_wrong.then_some(LineFault::NoMost(word, least))
        }
    }
}

/// Explains a `repeat` with a number that is not written out.
fn wrong_turns(words: &Words, turns: usize) -> LineFault {
    match unsigned(words.text(turns)) {
        Some(number) if 1 <= number && number <= 64 => {
            LineFault::Unfit("'repeat' without 'end'")
        }
        _ => LineFault::NoTurns(turns),
    }
}

/// Explains the first of several fields that is no name.
fn wrong_name(words: &Words, fields: &[usize]) -> Option<LineFault> {
    let wrong = fields.iter().copied().find(|field| !words.is_name(*field))?;
    Some(if has_bracket(words, wrong) {
        LineFault::NoIndex(wrong)
    } else {
        LineFault::NoName(wrong)
    })
}

fn has_bracket(words: &Words, word: usize) -> bool {
    words.text(word).as_bytes().iter().any(|byte| *byte == b'[')
}
