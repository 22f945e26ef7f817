//! The answers to plans: the texts and the picture of what a search found, and of an order of the locks.
mod cell;
mod dot;
mod going;
mod json;
mod lanes;
mod line_mark;
mod mark;
mod order;
mod picture;
mod run;
mod signal;
mod source;
mod stand;
mod step;
mod stop;
mod words;

use crate::answer::dot::dot_text;
use crate::answer::going::{write_always_steps, write_going_lines};
use crate::answer::json::json_text;
use crate::answer::lanes::write_drawing;
use crate::answer::line_mark::LineMark;
use crate::answer::picture::draw_picture;
use crate::answer::run::Run;
use crate::answer::source::Source;
use crate::answer::step::write_steps;
use crate::answer::stop::{stop_word, write_stop_lines};
use crate::options::Form;
pub(crate) use json::json_lines;
use lock_plan::Explored;
pub(crate) use order::order_text;
use plan_text::NamedPlan;
use std::alloc::{AllocError, Global};

/// Makes the answer to a plan, in a form, of what a search found.
pub(crate) fn answer_text(
    alloc: Global,
    form: Form,
    has_lines: bool,
    named: &NamedPlan,
    explored: &Explored,
) -> Result<String, AllocError> {
    let source = Source {
        alloc,
        plan: &named.plan,
        names: &named.names,
        mark: if has_lines {
            LineMark::Line(&named.programs)
        } else {
            LineMark::Nothing
        },
    };
    let run = match &explored.trace {
        None => None,
        Some(trace) => Some(Run::new(&source, trace.as_slice())?),
    };
    let visited = explored.visited;
    match (form, &run) {
        (Form::Svg, run) => draw_picture(&source, run.as_ref(), visited),
        (Form::Json, run) => json_text(&source, &named.programs, run.as_ref(), visited),
        (Form::Dot, run) => dot_text(&source, run.as_ref(), visited),
        (_, None) => none_text(&source, visited),
        (_, Some(run)) => {
            let mut text = String::new(alloc);
            write_stop(&mut text, &source, run)?;
            if form == Form::Lanes {
                write_drawing(&mut text, &source, run)?;
            }
            Ok(text)
        }
    }
}

/// Makes the answer that nothing deadlocks, with the parties that always have a step.
fn none_text(source: &Source, visited: usize) -> Result<String, AllocError> {
    let mut text = format!(in source.alloc; "no deadlock, {visited} states\n")?;
    write_always_steps(&mut text, source)?;
    Ok(text)
}

/// Appends the steps of a run into a deadlock, and who waits and who goes on there.
fn write_stop(text: &mut String, source: &Source, run: &Run) -> Result<(), AllocError> {
    let stopped = source.plan.stopped(source.alloc, run.last)?;
    writeln!(text, "{}", stop_word(stopped.as_slice()))?;
    write_steps(text, source, run)?;
    write_stop_lines(text, source, run.last, stopped.as_slice())?;
    write_going_lines(text, source, run.last, stopped.as_slice())
}
