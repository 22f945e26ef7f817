//! The parties that begin.
use crate::bad_lines::BadLines;
use crate::tree::Tree;
use plan_lines::{LineAt, LineFault};
use std::alloc::{AllocError, Global};

/// What is known of whether a party begins.
#[derive(Clone, Copy)]
enum Begins {
    Unknown,
    /// The walk from party to starter came here.
    Walked,
    Yes,
    Never,
}

/// Tells the lines of a tree that name an unknown party.
pub(crate) fn tell_unknown(
    alloc: Global,
    tree: &Tree,
    bad: &mut BadLines,
) -> Result<(), AllocError> {
    for (mention, name) in tree.mentions.as_slice().iter().enumerate() {
        if !tree.names.parties.contains(name) && !bad.is_full() {
            let line = line_in(tree.mention_lines.as_slice(), mention);
            bad.tell(alloc, tree, line, 1, LineFault::UnknownParty)?;
        }
    }
    Ok(())
}

/// Tells the line that starts the first party which never begins, if there is one.
pub(crate) fn tell_never(alloc: Global, tree: &Tree, bad: &mut BadLines) -> Result<(), AllocError> {
    if tree.started.is_empty() {
        return Ok(());
    }
    let begin = begin(alloc, tree)?;
    let Some(party) = begin
        .iter()
        .position(|begins| matches!(*begins, Begins::Never))
    else {
        return Ok(());
    };
    let start = match tree.names.parties.get_index(party) {
        Some(name) => tree.started.get_index_of(name).unwrap_or(0),
        None => 0,
    };
    let line = line_in(tree.start_lines.as_slice(), start);
    bad.tell(alloc, tree, line, 1, LineFault::NeverBegins)
}

fn line_in(lines: &[LineAt], number: usize) -> LineAt {
    lines.get(number).copied().unwrap_or(LineAt::alone(0))
}

/// Returns for each party whether it begins: no line starts it, or a line of a party that begins does.
fn begin(alloc: Global, tree: &Tree) -> Result<Vec<Begins>, AllocError> {
    let starters = starters(alloc, tree)?;
    let mut begin = vec![in alloc; Begins::Unknown; starters.len()]?;
    for party in 0..starters.len() {
        walk(alloc, starters.as_slice(), &mut begin, party)?;
    }
    Ok(begin)
}

/// Returns for each party the one whose line starts it.
fn starters(alloc: Global, tree: &Tree) -> Result<Vec<Option<usize>>, AllocError> {
    let mut starters = Vec::new(alloc);
    for name in tree.names.parties.as_slice() {
        starters.push(match tree.started.get_index_of(name) {
            Some(start) => tree.starters.get(start).copied(),
            None => None,
        })?;
    }
    Ok(starters)
}

/// Walks from a party to its starter, and on, and notes for all of them whether they begin.
fn walk(
    alloc: Global,
    starters: &[Option<usize>],
    begin: &mut Vec<Begins>,
    party: usize,
) -> Result<(), AllocError> {
    let mut path = Vec::new(alloc);
    let mut at = party;
    let mut end = Begins::Never;
    for _step in 0..starters.len() {
        match begin.get(at).copied() {
            Some(Begins::Unknown) => {}
            Some(Begins::Yes) => {
                end = Begins::Yes;
                break;
            }
            _ => break,
        }
        path.push(at)?;
        match starters.get(at).copied().flatten() {
            None => {
                end = Begins::Yes;
                break;
            }
            Some(starter) => {
                note(begin, at, Begins::Walked);
                at = starter;
            }
        }
    }
    for party in &path {
        note(begin, *party, end);
    }
    Ok(())
}

fn note(begin: &mut Vec<Begins>, party: usize, what: Begins) {
    if let Some(known) = begin.get_mut(party) {
        *known = what;
    }
}
