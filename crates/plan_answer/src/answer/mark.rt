//! What parties hold, mode by mode, and its text.

use lock_modes::Hold;
use plan_text::Names;
use std::alloc::AllocError;

/// A mode that is held, or an announcement.
#[derive(Clone, Copy)]
pub(crate) enum Mark {
    Shared,
    Exclusive,
    Upgradable,
    Announced,
}

impl Mark {
    /// All marks.
    pub(crate) const ALL: [Mark; 4] = [
        Mark::Shared,
        Mark::Exclusive,
        Mark::Upgradable,
        Mark::Announced,
    ];

    /// Returns the mark's word.
    pub(crate) fn word(self) -> &'static str {
        match self {
            Mark::Shared => "shared",
            Mark::Exclusive => "exclusive",
            Mark::Upgradable => "upgradable",
            Mark::Announced => "announced",
        }
    }

    /// Returns whether a hold has the mark.
    pub(crate) fn is_of(self, hold: Hold) -> bool {
        match self {
            Mark::Shared => hold.bag.shared > 0,
            Mark::Exclusive => hold.bag.exclusive > 0,
            Mark::Upgradable => hold.bag.upgradable > 0,
            Mark::Announced => hold.announced,
        }
    }
}

/// A party that holds a lock, or a lock that a party holds, with the mode.
#[derive(Clone, Copy)]
pub(crate) struct Marked {
    pub(crate) number: usize,
    pub(crate) mark: Mark,
}

/// How marks are written.
#[derive(Clone, Copy)]
pub(crate) enum Style {
    /// Of parties: `one shared, two announced`
    Words,
    /// Of locks: `a:s b:a`
    Letters,
}

/// Adds each mode of a hold, or each time that it is held, and its announcement.
pub(crate) fn add_marks(
    marks: &mut Vec<Marked>,
    is_each: bool,
    number: usize,
    hold: Hold,
) -> Result<(), AllocError> {
    add_shared_marks(marks, number, times(is_each, hold.bag.shared))?;
    add_mark_if(marks, number, Mark::Exclusive, hold.bag.exclusive > 0)?;
    add_mark_if(marks, number, Mark::Upgradable, hold.bag.upgradable > 0)?;
    add_mark_if(marks, number, Mark::Announced, hold.announced)
}

/// Returns how often a mode that is held so many times is listed: each time, or once.
fn times(is_each: bool, count: u64) -> u64 {
    if is_each { count } else { count.min(1) }
}

fn add_shared_marks(marks: &mut Vec<Marked>, number: usize, count: u64) -> Result<(), AllocError> {
    for _time in 0..count {
        marks.push(Marked {
            number,
            mark: Mark::Shared,
        })?;
    }
    Ok(())
}

fn add_mark_if(
    marks: &mut Vec<Marked>,
    number: usize,
    mark: Mark,
    is_held: bool,
) -> Result<(), AllocError> {
    if is_held {
        marks.push(Marked { number, mark })?;
    }
    Ok(())
}

/// Appends marks, with gaps between them.
pub(crate) fn write_marks(
    text: &mut String,
    style: Style,
    names: &Names,
    marks: &[Marked],
) -> Result<(), AllocError> {
    let Some((first, rest)) = marks.split_first() else {
        return Ok(());
    };
    write_mark(text, style, names, *first)?;
    for mark in rest {
        text.push_str(gap(style))?;
        write_mark(text, style, names, *mark)?;
    }
    Ok(())
}

/// Appends a name and a mode.
fn write_mark(
    text: &mut String,
    style: Style,
    names: &Names,
    marked: Marked,
) -> Result<(), AllocError> {
    let name = match style {
        Style::Words => names.party(marked.number),
        Style::Letters => names.lock(marked.number),
    };
    write!(text, "{name}{}", mode_text(style, marked.mark))
}

fn gap(style: Style) -> &'static str {
    match style {
        Style::Words => ", ",
        Style::Letters => " ",
    }
}

fn mode_text(style: Style, mark: Mark) -> &'static str {
    match (style, mark) {
        (Style::Words, Mark::Shared) => " shared",
        (Style::Words, Mark::Exclusive) => " exclusive",
        (Style::Words, Mark::Upgradable) => " upgradable",
        (Style::Words, Mark::Announced) => " announced",
        (Style::Letters, Mark::Shared) => ":s",
        (Style::Letters, Mark::Exclusive) => ":x",
        (Style::Letters, Mark::Upgradable) => ":u",
        (Style::Letters, Mark::Announced) => ":a",
    }
}
