//! A bar for each hold.
use crate::answer::mark::Mark;
use crate::answer::picture::layout::Layout;
use crate::answer::picture::svg::{Spot, Svg};
use crate::answer::run::Run;
use crate::answer::source::Source;
use crate::answer::stand::hold_at;
use plan_text::Names;
use std::alloc::AllocError;

/// Draws what a party holds, lock by lock and mode by mode.
pub(crate) fn write_bars(
    svg: &mut Svg,
    source: &Source,
    run: &Run,
    layout: &Layout,
    party: usize,
) -> Result<(), AllocError> {
    for lock in 0..source.plan.locks().len() {
        for mark in &Mark::ALL {
            write_bars_of(
                svg,
                source,
                run,
                layout,
                HeldMark {
                    party,
                    lock,
                    mark: *mark,
                },
            )?;
        }
    }
    Ok(())
}

/// What a bar shows.
#[derive(Clone, Copy)]
struct HeldMark {
    party: usize,
    lock: usize,
    mark: Mark,
}

/// Draws a bar for each time in which a party holds a lock in a mode.
fn write_bars_of(
    svg: &mut Svg,
    source: &Source,
    run: &Run,
    layout: &Layout,
    held: HeldMark,
) -> Result<(), AllocError> {
    let mut since = None;
    for row in 0..layout.last_row() {
        let hold = hold_at(source.plan, run.node(row), held.party, held.lock);
        let is_held = held.mark.is_of(hold);
        match since {
            None if is_held => since = Some(row),
            Some(first) if !is_held => {
                write_bar(svg, source.names, layout, held, first, row)?;
                since = None;
            }
            _ => {}
        }
    }
    match since {
        Some(first) => write_bar(svg, source.names, layout, held, first, layout.last_row()),
        None => Ok(()),
    }
}

/// Draws a bar between two rows, and the name of its lock where there is room.
fn write_bar(
    svg: &mut Svg,
    names: &Names,
    layout: &Layout,
    held: HeldMark,
    first: usize,
    end: usize,
) -> Result<(), AllocError> {
    let height = Layout::bar_height(end.saturating_sub(first));
    let spot = layout.bar(held.party, held.lock, first);
    // A party can hold a lock shared and upgradable.
    let spot = match held.mark {
        Mark::Upgradable => Spot {
            x: spot.x.saturating_add(4),
            ..spot
        },
        _ => spot,
    };
    svg.rect(held.mark.word(), spot, Layout::BAR, height)?;
    let name = names.lock(held.lock);
    if name.len().saturating_mul(Layout::LETTER) > height {
        return Ok(());
    }
    let start = Spot {
        x: spot.x.saturating_add(3),
        y: spot.y.saturating_add(4),
    };
    svg.text_down("lock", start, name)
}
