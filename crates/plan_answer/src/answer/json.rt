//! Answers as a line of JSON.
use crate::answer::going::{write_always_steps, write_going_lines};
use crate::answer::run::{Made, Run};
use crate::answer::source::Source;
use crate::answer::stand::place_at;
use crate::answer::step::{lock_at, write_made};
use crate::answer::stop::{holders, is_full, stop_word, write_awaited};
use lock_plan::{Act, PlanCall, Stopped};
use plan_lines::Origin;
use plan_text::Programs;
use std::alloc::{AllocError, Global};

/// Makes the object of an answer: its word, and the states, or the steps, the stopped parties and those that go on.
pub(crate) fn json_text(
    source: &Source,
    lines: &Programs,
    run: Option<&Run>,
    visited: usize,
) -> Result<String, AllocError> {
    let mut text = String::new(source.alloc);
    match run {
        None => {
            write!(
                text,
                "{{\"answer\":\"no deadlock\",\"states\":{visited},\"always_a_step\":["
            )?;
            let mut always = String::new(source.alloc);
            write_always_steps(&mut always, source)?;
            write_first_words(&mut text, always.as_str())?;
        }
        Some(run) => write_run(&mut text, source, lines, run)?,
    }
    text.push_str("]}\n")?;
    Ok(text)
}

/// Makes the object of an answer of these lines, of which the first is the answer.
pub(crate) fn json_lines(alloc: Global, answer: &str) -> Result<String, AllocError> {
    let mut text = String::from_str(alloc, "{\"answer\":")?;
    let mut lines = answer.lines();
    write_text(&mut text, lines.next().unwrap_or(""))?;
    text.push_str(",\"reasons\":[")?;
    let mut is_later = false;
    for line in lines {
        begin_item(&mut text, is_later)?;
        write_text(&mut text, line)?;
        is_later = true;
    }
    text.push_str("]}\n")?;
    Ok(text)
}

/// Appends a run into a stop or a circle, up to the last list.
fn write_run(
    text: &mut String,
    source: &Source,
    lines: &Programs,
    run: &Run,
) -> Result<(), AllocError> {
    let stopped = source.plan.stopped(source.alloc, run.last)?;
    write!(
        text,
        "{{\"answer\":\"{}\",\"steps\":[",
        stop_word(stopped.as_slice())
    )?;
    let mut is_later = false;
    for made in &run.steps {
        begin_item(text, is_later)?;
        write_step(text, source, lines, *made)?;
        is_later = true;
    }
    text.push_str("],\"stopped\":[")?;
    is_later = false;
    for party in &stopped {
        begin_item(text, is_later)?;
        write_stopped(text, source, lines, run.last, party)?;
        is_later = true;
    }
    text.push_str("],\"goes_on\":[")?;
    let mut going = String::new(source.alloc);
    write_going_lines(&mut going, source, run.last, stopped.as_slice())?;
    write_first_words(text, going.as_str())
}

fn write_step(
    text: &mut String,
    source: &Source,
    lines: &Programs,
    made: Made,
) -> Result<(), AllocError> {
    write_party(text, source, lines, made.before, made.step.party)?;
    text.push_str(",\"step\":")?;
    let mut step = String::new(source.alloc);
    write_made(&mut step, source, made)?;
    write_text(text, step.as_str())?;
    text.push('}')
}

/// Appends the lines of the calls around a line, if there are any.
fn write_callers(text: &mut String, origin: Origin) -> Result<(), AllocError> {
    let mut here = origin;
    let mut is_later = false;
    for _caller in 0..origin.most_callers() {
        let Some(caller) = here.caller() else {
            break;
        };
        text.push_str(if is_later { "," } else { "\"from\":[" })?;
        write_caller(text, caller)?;
        is_later = true;
        here = caller;
    }
    if is_later {
        text.push_str("],")
    } else {
        Ok(())
    }
}

/// Appends the line of a call: its number, or an object with its file if that is an included one.
fn write_caller(text: &mut String, caller: Origin) -> Result<(), AllocError> {
    if caller.file().is_empty() {
        return write!(text, "{}", caller.line());
    }
    text.push('{')?;
    write_line(text, caller)?;
    text.push('}')
}

/// Appends the number of a line, and its file if that is an included one.
fn write_line(text: &mut String, origin: Origin) -> Result<(), AllocError> {
    write!(text, "\"line\":{}", origin.line())?;
    if origin.file().is_empty() {
        return Ok(());
    }
    text.push_str(",\"file\":")?;
    write_text(text, origin.file())
}

/// Appends the begin of an object: the line of a row at a node, and its party.
fn write_party(
    text: &mut String,
    source: &Source,
    lines: &Programs,
    node: u128,
    row: usize,
) -> Result<(), AllocError> {
    let origin = lines.origin(row, place_at(source.plan, node, row));
    text.push('{')?;
    write_line(text, origin)?;
    text.push(',')?;
    write_callers(text, origin)?;
    text.push_str("\"party\":")?;
    write_text(text, source.names.party(row))
}

fn write_stopped(
    text: &mut String,
    source: &Source,
    lines: &Programs,
    node: u128,
    stopped: &Stopped,
) -> Result<(), AllocError> {
    write_party(text, source, lines, node, stopped.party)?;
    text.push_str(if stopped.is_refused {
        ",\"refused\":"
    } else {
        ",\"waits_for\":"
    })?;
    let mut awaited = String::new(source.alloc);
    write_awaited(&mut awaited, source, stopped.act)?;
    write_text(text, awaited.as_str())?;
    if let Some(first) = stopped.behind {
        text.push_str(",\"behind\":")?;
        write_text(text, source.names.party(first))?;
    } else if let Act::Call(call) = stopped.act {
        write_holders(text, source, node, call)?;
    }
    text.push('}')
}

/// Appends the holders of a call's lock, and its limit if it has all its readers.
fn write_holders(
    text: &mut String,
    source: &Source,
    node: u128,
    call: PlanCall,
) -> Result<(), AllocError> {
    let holds = source.plan.holds_of(source.alloc, node, call.lock)?;
    let limit = lock_at(source.plan, call.lock).limit;
    let is_full = is_full(limit, holds.as_slice(), call.step);
    text.push_str(",\"holders\":[")?;
    let mut is_later = false;
    for marked in &holders(source.alloc, is_full, holds.as_slice())? {
        begin_item(text, is_later)?;
        text.push_str("{\"party\":")?;
        write_text(text, source.names.party(marked.number))?;
        write!(text, ",\"mode\":\"{}\"}}", marked.mark.word())?;
        is_later = true;
    }
    text.push(']')?;
    if is_full {
        write!(text, ",\"limit\":{limit}")?;
    }
    Ok(())
}

/// Appends the first word of each line as a text of a list.
fn write_first_words(text: &mut String, lines: &str) -> Result<(), AllocError> {
    let mut is_later = false;
    for line in lines.lines() {
        begin_item(text, is_later)?;
        let name = match line.split_once(' ') {
            Some((name, _)) => name,
            None => line,
        };
        write_text(text, name)?;
        is_later = true;
    }
    Ok(())
}

/// Appends the comma before a later item of a list.
fn begin_item(text: &mut String, is_later: bool) -> Result<(), AllocError> {
    if is_later { text.push(',') } else { Ok(()) }
}

/// Appends a text between quotes.
pub(crate) fn write_text(text: &mut String, inside: &str) -> Result<(), AllocError> {
    text.push('"')?;
    for letter in inside.chars() {
        match letter {
            '"' => text.push_str("\\\"")?,
            '\\' => text.push_str("\\\\")?,
            _ if letter < ' ' => text.push('?')?,
            _ => text.push(letter)?,
        }
    }
    text.push('"')
}
