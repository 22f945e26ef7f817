//! Reading a line.
use crate::counter::{Counter, CounterKind};
use crate::forms::Role;
use crate::line::Written;
use crate::rows::{MOST, count};
use crate::said::{Condition, Join, LockLine, Look, Looks, Parties, Receipt, Said, WaitLine};
use crate::words::Words;
use lock_modes::{Kind, LockStep, Mode, ModeStep};
use script_text::unsigned;
use std::alloc::AllocError;

/// The most parameters of a function.
const MOST_PARAMETERS: usize = 64;

/// Reads a line of these words, or returns `None` for one that is not in the format. Adds the looks of its condition to `looks`.
pub fn read(
    words: &Words,
    looks: &mut Looks,
    fields: &[usize],
    written: Written,
) -> Result<Option<Said>, AllocError> {
    let [word, rest @ ..] = fields else {
        return Ok(None);
    };
    let Some(form) = words.form(*word) else {
        return Ok(None);
    };
    match form.2 {
        Role::Wait => wait(words, looks, rest),
        Role::If => match receipt(words, Receipt::If, rest, written) {
            Some(said) => Ok(Some(said)),
            None => Ok(condition(words, looks, rest)?.map(Said::If)),
        },
        Role::Assert => assert(words, looks, rest),
        Role::Repeat => repeat(words, looks, rest),
        role => Ok(plain(words, role, rest, written)),
    }
}

/// Reads a line without a condition.
fn plain(words: &Words, role: Role, rest: &[usize], written: Written) -> Option<Said> {
    let said = match role {
        Role::Lock(kind) => return lock(words, kind, rest),
        Role::Counter(CounterKind::Flag) => return flag(words, rest),
        Role::Counter(kind) => return counter(words, kind, rest),
        Role::Party(is_server) => return party(words, is_server, rest),
        Role::Try => return tried(words, rest, written),
        Role::While => return receipt(words, Receipt::While, rest, written),
        Role::Close => Said::Unclosed(name(words, rest)?),
        Role::Define => return define(words, rest),
        Role::Invoke => return invoke(words, rest, written),
        Role::Pick => return pick(words, rest, written),
        Role::Condvar => Said::Condvar(name(words, rest)?),
        Role::Call(is_rwlock, step) => Said::Call(is_rwlock, step, name(words, rest)?),
        Role::Await => Said::Unlatched(false, name(words, rest)?),
        Role::CountDown => Said::Unlatched(true, name(words, rest)?),
        Role::Move(kind, is_up) => Said::Move(kind, is_up, name(words, rest)?),
        Role::Set => return set(words, rest),
        Role::Clear => Said::SetFlag(false, name(words, rest)?),
        Role::NotifyOne => Said::NotifyOne(name(words, rest)?),
        Role::NotifyAll => Said::NotifyAll(name(words, rest)?),
        Role::Start => Said::Start(name(words, rest)?),
        Role::Join => Said::Join(name(words, rest)?),
        role => return alone(role, rest),
    };
    Some(said)
}

/// Reads a line of one word.
fn alone(role: Role, rest: &[usize]) -> Option<Said> {
    if !rest.is_empty() {
        return None;
    }
    match role {
        Role::Forever => Some(Said::Forever),
        Role::Leave => Some(Said::Leave),
        Role::Return => Some(Said::Return),
        Role::Either => Some(Said::Either),
        Role::Or => Some(Said::Or),
        Role::Else => Some(Said::Else),
        Role::End => Some(Said::End),
        _ => None,
    }
}

/// Reads a name that is the only field.
fn name(words: &Words, fields: &[usize]) -> Option<usize> {
    match fields {
        [name] => name_in(words, *name),
        _ => None,
    }
}

fn name_in(words: &Words, name: usize) -> Option<usize> {
    if words.is_name(name) {
        Some(name)
    } else {
        None
    }
}

fn lock(words: &Words, kind: Kind, fields: &[usize]) -> Option<Said> {
    let [name, rest @ ..] = fields else {
        return None;
    };
    let (limit, last) = match (kind, rest) {
        (Kind::Mutex, last) => (1, last),
        (Kind::RwLock, []) => (u64::from(u32::MAX), rest),
        (Kind::RwLock, [word, ..]) if !begins_by_digit(words.text(*word)) => {
            (u64::from(u32::MAX), rest)
        }
        (_, [number, last @ ..]) => (limit(words.text(*number))?, last),
        (_, []) => return None,
    };
    let (bar, fair) = match last {
        [] => (false, false),
        [word] if kind.is_rwlock() && words.is(*word, "bar") => (true, false),
        [word] if !kind.is_reentrant() && words.is(*word, "fair") => (false, true),
        _ => return None,
    };
    let lock = LockLine {
        kind,
        limit,
        bar,
        fair,
    };
    Some(Said::Lock(lock, name_in(words, *name)?))
}

/// Reads a limit of readers or levels.
pub(crate) fn limit(field: &str) -> Option<u64> {
    unsigned(field).filter(|limit| 1 <= *limit && *limit <= u64::from(u32::MAX))
}

/// Returns whether a text begins by a digit.
pub(crate) fn begins_by_digit(text: &str) -> bool {
    match text.as_bytes() {
        [first, ..] => first.is_ascii_digit(),
        [] => false,
    }
}

fn flag(words: &Words, fields: &[usize]) -> Option<Said> {
    match fields {
        [name] => Some(Said::Counter(Counter::flag(false), name_in(words, *name)?)),
        [name, value] if words.is(*value, "true") => Some(Said::Counter(
            Counter::flag(true),
            name_in(words, *name)?,
        )),
        _ => None,
    }
}

/// Reads a counter, a semaphore or a channel.
fn counter(words: &Words, kind: CounterKind, fields: &[usize]) -> Option<Said> {
    let [name, most, rest @ ..] = fields else {
        return None;
    };
    let number = number(words.text(*most))?;
    let (most, first) = match (kind, rest) {
        (CounterKind::Semaphore, []) => (number, number),
        (CounterKind::Semaphore, [most]) => (self::number(words.text(*most))?, number),
        (_, []) => (number, 0),
        (CounterKind::Counter, [is, first]) if words.is(*is, "=") => {
            (number, self::number(words.text(*first))?)
        }
        _ => return None,
    };
    if most < 1 || first > most {
        return None;
    }
    Some(Said::Counter(Counter { kind, most, first }, name_in(words, *name)?))
}

/// Reads a number of at most [`MOST`].
pub(crate) fn number(field: &str) -> Option<usize> {
    let number = unsigned(field).filter(|number| *number <= MOST)?;
    usize::try_from(number).ok()
}

/// Reads what makes a flag true, or gives a counter a value.
fn set(words: &Words, fields: &[usize]) -> Option<Said> {
    match fields {
        [name] => Some(Said::SetFlag(true, name_in(words, *name)?)),
        [name, value] => Some(Said::SetCounter(
            number(words.text(*value))?,
            name_in(words, *name)?,
        )),
        _ => None,
    }
}

/// Reads looks with `and` between them.
fn assert(words: &Words, looks: &mut Looks, fields: &[usize]) -> Result<Option<Said>, AllocError> {
    let Some(condition) = condition(words, looks, fields)? else {
        return Ok(None);
    };
    let has_or = condition
        .looks(looks.as_slice())
        .iter()
        .any(|(_, join)| *join == Join::Or);
    Ok(if has_or {
        None
    } else {
        Some(Said::Assert(condition))
    })
}

fn party(words: &Words, is_server: bool, fields: &[usize]) -> Option<Said> {
    let (name, parties) = match fields {
        [name] => (*name, Parties::One),
        [name, number] => (*name, parties(words.text(*number))?),
        _ => return None,
    };
    Some(Said::Party(is_server, parties, name_in(words, name)?))
}

/// Reads how many parties a line makes.
pub(crate) fn parties(field: &str) -> Option<Parties> {
    match field {
        "*" => Some(Parties::Any),
        _ => Some(Parties::Copies(count(field)?)),
    }
}

/// Reads a receive from a channel that may be closed. In a line that is not written out, no such channel is there.
fn receipt(words: &Words, how: Receipt, fields: &[usize], written: Written) -> Option<Said> {
    match fields {
        [word, name, any] if written == Written::Block && words.is(*word, "receive") => {
            Some(Said::Receipt(how, *name, *any))
        }
        [word, name] if words.is(*word, "receive") => {
            Some(Said::Unclosed(name_in(words, *name)?))
        }
        _ => None,
    }
}

fn tried(words: &Words, fields: &[usize], written: Written) -> Option<Said> {
    if written == Written::Block {
        return receipt(words, Receipt::Try, fields, written);
    }
    let [call, name] = fields else {
        return None;
    };
    if written == Written::Refused {
        return Some(Said::TryOffer(*name));
    }
    if let Role::Move(kind, is_up) = words.form(*call)?.2 {
        return Some(Said::TryMove(kind, is_up, name_in(words, *name)?));
    }
    let (is_rwlock, step) = tried_call(words, *call)?;
    Some(Said::Try(is_rwlock, step, name_in(words, *name)?))
}

/// Reads the word of a call that can be tried.
pub(crate) fn tried_call(words: &Words, word: usize) -> Option<(bool, LockStep)> {
    match words.form(word)?.2 {
        Role::Call(
            is_rwlock,
            step @ LockStep::Modes(ModeStep::Acquire(_) | ModeStep::Change(_, Mode::Exclusive)),
        ) => Some((is_rwlock, step)),
        _ => None,
    }
}

fn repeat(words: &Words, looks: &mut Looks, fields: &[usize]) -> Result<Option<Said>, AllocError> {
    match fields {
        [] => Ok(Some(Said::Repeat)),
        [word, rest @ ..] if words.is(*word, "until") => {
            Ok(condition(words, looks, rest)?.map(Said::Until))
        }
        _ => Ok(None),
    }
}

/// Reads the first line of a function: its name, and names of parameters that differ.
fn define(words: &Words, fields: &[usize]) -> Option<Said> {
    let [name, parameters @ ..] = fields else {
        return None;
    };
    if parameters.len() > MOST_PARAMETERS {
        return None;
    }
    for (at, parameter) in parameters.iter().enumerate() {
        if !words.is_name(*parameter) || parameters.iter().take(at).any(|it| it == parameter) {
            return None;
        }
    }
    Some(Said::Define(name_in(words, *name)?, parameters.len()))
}

fn invoke(words: &Words, fields: &[usize], written: Written) -> Option<Said> {
    let [name, arguments @ ..] = fields else {
        return None;
    };
    if !arguments.iter().all(|argument| words.is_name(*argument)) {
        return None;
    }
    let name = name_in(words, *name)?;
    Some(Said::Invoke(name, arguments.len(), written))
}

fn pick(words: &Words, fields: &[usize], written: Written) -> Option<Said> {
    let (name, row) = match fields {
        [name, of, row] if words.is(*of, "of") => (*name, *row),
        [name, of, row, except, lock]
            if words.is(*of, "of") && words.is(*except, "except") && words.is_name(*lock) => {
            (*name, *row)
        }
        _ => return None,
    };
    name_in(words, name)?;
    Some(Said::Pick(name_in(words, row)?, written))
}

fn wait(words: &Words, looks: &mut Looks, fields: &[usize]) -> Result<Option<Said>, AllocError> {
    let [condvar, mutex, rest @ ..] = fields else {
        return Ok(None);
    };
    if !words.is_name(*condvar) || !words.is_name(*mutex) {
        return Ok(None);
    }
    let Some((until, is_timed)) = wait_end(words, looks, rest)? else {
        return Ok(None);
    };
    Ok(Some(Said::Wait(WaitLine {
        condvar: *condvar,
        mutex: *mutex,
        until,
        is_timed,
    })))
}

/// What comes after the mutex of a wait.
type WaitEnd = (Option<Condition>, bool);

fn wait_end(
    words: &Words,
    looks: &mut Looks,
    fields: &[usize],
) -> Result<Option<WaitEnd>, AllocError> {
    if let Some(until) = until(words, looks, fields)? {
        return Ok(Some((Some(until), false)));
    }
    match fields {
        [] => Ok(Some((None, false))),
        [rest @ .., or, last] if words.is(*or, "or") && words.is(*last, "timeout") => {
            if rest.is_empty() {
                return Ok(Some((None, true)));
            }
            Ok(until(words, looks, rest)?.map(|until| (Some(until), true)))
        }
        _ => Ok(None),
    }
}

/// Reads `until` and a condition.
fn until(
    words: &Words,
    looks: &mut Looks,
    fields: &[usize],
) -> Result<Option<Condition>, AllocError> {
    match fields {
        [word, rest @ ..] if words.is(*word, "until") => condition(words, looks, rest),
        _ => Ok(None),
    }
}

/// Reads a condition: looks, with `and` or `or` between them.
fn condition(
    words: &Words,
    looks: &mut Looks,
    fields: &[usize],
) -> Result<Option<Condition>, AllocError> {
    let first = looks.len();
    if let Some(look) = look(words, fields) {
        looks.push((look, Join::Last))?;
        let end = looks.len();
        return Ok(Some(Condition { first, end }));
    }
    let mut rest = fields;
    for _look in 0..fields.len() {
        let Some((found, join, after)) = next_looks(words, rest) else {
            break;
        };
        let (look, upper) = found;
        match upper {
            None => looks.push((look, join))?,
            Some(upper) => {
                looks.push((look, Join::And))?;
                looks.push((upper, join))?;
            }
        }
        if join == Join::Last {
            let end = looks.len();
            return Ok(Some(Condition { first, end }));
        }
        rest = after;
    }
    looks.truncate(first);
    Ok(None)
}

/// A look, and another one that is to be so too.
type OneOrTwo = (Look, Option<Look>);

/// Reads one of several looks, and returns what comes after it, and the fields behind that.
fn next_looks<'a>(words: &Words, fields: &'a [usize]) -> Option<(OneOrTwo, Join, &'a [usize])> {
    let (found, rest) = match fields {
        [name, how, number, rest @ ..] if is_comparison(words, *how) => {
            (comparison(words, *name, *how, *number)?, rest)
        }
        [not, flag, rest @ ..] if words.is(*not, "not") => {
            ((flag_look(words, false, *flag)?, None), rest)
        }
        [flag, rest @ ..] => ((flag_look(words, true, *flag)?, None), rest),
        [] => return None,
    };
    let (join, rest) = match rest {
        [] => (Join::Last, rest),
        [word, rest @ ..] if words.is(*word, "and") => (Join::And, rest),
        [word, rest @ ..] if words.is(*word, "or") => (Join::Or, rest),
        _ => return None,
    };
    Some((found, join, rest))
}

fn is_comparison(words: &Words, word: usize) -> bool {
    matches!(words.text(word), ">=" | "<" | "=")
}

/// Reads a comparison of a counter with a number. An equal one is at least the number, and not at least the next one.
fn comparison(words: &Words, name: usize, how: usize, number: usize) -> Option<OneOrTwo> {
    if !words.is_flag_name(name) {
        return None;
    }
    let number = self::number(words.text(number))?;
    let at_least = |value: bool, number: usize| Look {
        value,
        name,
        number: Some(number),
    };
    Some(match words.text(how) {
        ">=" => (at_least(true, number), None),
        "<" => (at_least(false, number), None),
        _ => (
            at_least(true, number),
            Some(at_least(false, number.saturating_add(1))),
        ),
    })
}

/// Makes a look at a flag, unless it has the name of a word of a condition.
fn flag_look(words: &Words, value: bool, name: usize) -> Option<Look> {
    if !words.is_flag_name(name) {
        return None;
    }
    Some(Look {
        value,
        name,
        number: None,
    })
}

/// Reads a flag, or `not` and a flag.
fn look(words: &Words, fields: &[usize]) -> Option<Look> {
    let (value, flag) = match fields {
        [flag] => (true, *flag),
        [not, flag] if words.is(*not, "not") => (false, *flag),
        _ => return None,
    };
    Some(Look {
        value,
        name: name_in(words, flag)?,
        number: None,
    })
}
