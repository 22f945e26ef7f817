//! Pictures: a column for each party, time downward, and a bar for each hold, as SVG.

mod bars;
mod layout;
mod svg;
pub(crate) mod waits;

use crate::answer::going::write_always_steps;
use crate::answer::mark::Mark;
use crate::answer::run::Run;
use crate::answer::source::Source;
use crate::answer::step::write_marked;
use crate::answer::stop::stop_word;
use bars::write_bars;
use layout::Layout;
use std::alloc::AllocError;
use svg::{Spot, Svg};
use waits::{draw_waits, write_stopped};

/// Makes the picture of a run, or of the answer that nothing stops.
///
/// It shows what the text of the answer says. A dot marks each step, a bar each hold from the step that acquires it, in a color
/// of its mode. Below the last step, an arrow leads from each party that waits to each holder of the lock, to the party that it
/// is behind, or to the party that it joins. The arrows of a circle of waiting parties are heavier. A flag has no column.
pub(crate) fn draw_picture(
    source: &Source,
    run: Option<&Run>,
    visited: usize,
) -> Result<String, AllocError> {
    match run {
        None => picture_of_none(source, visited),
        Some(run) => picture_of_run(source, run),
    }
}

/// The picture where nothing stops: its lines are the answer.
fn picture_of_none(source: &Source, visited: usize) -> Result<String, AllocError> {
    let mut always = String::new(source.alloc);
    write_always_steps(&mut always, source)?;
    let layout = Layout::of_none(always.as_str().lines().count());
    let mut svg = Svg::new(source.alloc, layout.width(), layout.height())?;
    let answer = format!(in source.alloc; "no deadlock, {visited} states")?;
    svg.text("name", layout.title(), answer.as_str())?;
    for (number, line) in always.as_str().lines().enumerate() {
        svg.text("call", layout.below_title(number), line)?;
    }
    svg.finish()
}

fn picture_of_run(source: &Source, run: &Run) -> Result<String, AllocError> {
    let layout = Layout::of_run(source, run)?;
    let mut svg = Svg::new(source.alloc, layout.width(), layout.height())?;
    let list = source.plan.stopped(source.alloc, run.last)?;
    svg.text("name", layout.title(), stop_word(list.as_slice()))?;
    write_legend(&mut svg, &layout)?;
    for party in 0..source.names.parties() {
        write_column(&mut svg, source, &layout, party)?;
        write_bars(&mut svg, source, run, &layout, party)?;
    }
    write_steps(&mut svg, source, run, &layout)?;
    for stopped in &list {
        write_stopped(&mut svg, source, &layout, run.last, stopped)?;
    }
    draw_waits(&mut svg, source, run, &layout, list.as_slice())?;
    svg.finish()
}

/// The name of a party, and its line.
fn write_column(
    svg: &mut Svg,
    source: &Source,
    layout: &Layout,
    party: usize,
) -> Result<(), AllocError> {
    svg.line("life", layout.life(party, 0), layout.end(party))?;
    let name = source.names.party(party);
    svg.text("name", layout.head(party), name)
}

/// A dot for each step, and what it does.
fn write_steps(
    svg: &mut Svg,
    source: &Source,
    run: &Run,
    layout: &Layout,
) -> Result<(), AllocError> {
    for (row, made) in run.steps.iter().enumerate() {
        let row = row.saturating_add(1);
        svg.dot(layout.life(made.step.party, row))?;
        let mut call = String::new(source.alloc);
        write_marked(&mut call, source, *made)?;
        svg.text("call", layout.beside(made.step.party, row), call.as_str())?;
    }
    Ok(())
}

/// What the colors mean.
fn write_legend(svg: &mut Svg, layout: &Layout) -> Result<(), AllocError> {
    for (place, mark) in Mark::ALL.iter().enumerate() {
        let spot = layout.legend(place);
        svg.rect(mark.word(), spot, Layout::BAR, Layout::BAR)?;
        let beside = Spot {
            x: spot.x.saturating_add(Layout::SLOT),
            y: spot.y.saturating_add(Layout::BAR),
        };
        svg.text("call", beside, mark.word())?;
    }
    Ok(())
}
