//! What stopped parties wait for, and an arrow from each to the parties that it waits for.
use crate::answer::line_mark::write_mark;
use crate::answer::picture::layout::Layout;
use crate::answer::picture::svg::{Spot, Svg};
use crate::answer::run::Run;
use crate::answer::source::Source;
use crate::answer::stop::write_awaited;
use lock_plan::{Act, Signal, Stopped};
use std::alloc::{AllocError, Global};

/// Writes what a stopped party waits for below its line.
pub(crate) fn write_stopped(
    svg: &mut Svg,
    source: &Source,
    layout: &Layout,
    node: u128,
    stopped: &Stopped,
) -> Result<(), AllocError> {
    let spot = layout.stop(stopped.party);
    svg.text(
        "call",
        spot,
        if stopped.is_refused {
            "refused"
        } else {
            "waits for"
        },
    )?;
    let below = Spot {
        y: spot.y.saturating_add(16),
        ..spot
    };
    let mut reason = String::new(source.alloc);
    write_mark(&mut reason, source, node, stopped.party)?;
    write_reason(&mut reason, source, stopped)?;
    svg.text("call", below, reason.as_str())
}

/// Appends what a stopped party waits for, and behind whom.
pub(crate) fn write_reason(
    text: &mut String,
    source: &Source,
    stopped: &Stopped,
) -> Result<(), AllocError> {
    write_awaited(text, source, stopped.act)?;
    if let Some(first) = stopped.behind {
        write!(text, " behind {}", source.names.party(first))?;
    }
    Ok(())
}

/// A party that waits, and one that it waits for: a holder of this lock, the party that it joins, or the one that it is behind.
#[derive(Clone, Copy)]
pub(crate) struct Edge {
    pub(crate) waiter: usize,
    pub(crate) awaited: usize,
    pub(crate) lock: Option<usize>,
}

/// Draws an arrow from each party that waits to those that it waits for, heavier where it is part of a circle.
pub(crate) fn draw_waits(
    svg: &mut Svg,
    source: &Source,
    run: &Run,
    layout: &Layout,
    list: &[Stopped],
) -> Result<(), AllocError> {
    let parties = source.names.parties();
    let edges = edges_of(source, parties, run.last, list)?;
    for edge in &edges {
        let is_circle = reaches(
            source.alloc,
            edges.as_slice(),
            parties,
            edge.awaited,
            edge.waiter,
        )?;
        svg.line(
            if is_circle { "circle" } else { "wait" },
            layout.tail(edge.waiter),
            match edge.lock {
                Some(lock) => layout.tip(edge.awaited, lock),
                None => layout.end(edge.awaited),
            },
        )?;
    }
    Ok(())
}

/// Returns who waits for whom at a node.
pub(crate) fn edges_of(
    source: &Source,
    parties: usize,
    node: u128,
    list: &[Stopped],
) -> Result<Vec<Edge>, AllocError> {
    let mut edges = Vec::new(source.alloc);
    for stopped in list {
        if let Some(first) = stopped.behind {
            edges.push(Edge {
                waiter: stopped.party,
                awaited: first,
                lock: None,
            })?;
            continue;
        }
        match stopped.act {
            Act::Call(call) => { add_holders(&mut edges, source, node, stopped.party, call.lock)? }
            Act::Signal(Signal::Join(row)) if row < parties => edges.push(Edge {
                waiter: stopped.party,
                awaited: row,
                lock: None,
            })?,
            _ => {}
        }
    }
    Ok(edges)
}

/// Adds the holders of a lock for which a party waits. It waits for itself only where nobody else holds the lock.
fn add_holders(
    edges: &mut Vec<Edge>,
    source: &Source,
    node: u128,
    waiter: usize,
    lock: usize,
) -> Result<(), AllocError> {
    let holds = source.plan.holds_of(source.alloc, node, lock)?;
    for it in &holds {
        if it.party != waiter || holds.len() == 1 {
            edges.push(Edge {
                waiter,
                awaited: it.party,
                lock: Some(lock),
            })?;
        }
    }
    Ok(())
}

/// Returns whether arrows lead from one party to another, or the two are one.
fn reaches(
    alloc: Global,
    edges: &[Edge],
    parties: usize,
    from: usize,
    to: usize,
) -> Result<bool, AllocError> {
    let mut reached = vec![in alloc; false; parties]?;
    if let Some(first) = reached.get_mut(from) {
        *first = true;
    }
    for _round in 0..parties {
        for edge in edges {
            if reached.get(edge.waiter).copied().unwrap_or(false) {
                if let Some(next) = reached.get_mut(edge.awaited) {
                    *next = true;
                }
            }
        }
    }
    Ok(reached.get(to).copied().unwrap_or(false))
}
