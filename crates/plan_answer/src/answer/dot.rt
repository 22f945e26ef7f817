//! Answers as a graph in DOT: who waits for whom.
use crate::answer::json::write_text;
use crate::answer::picture::waits::{edges_of, write_reason};
use crate::answer::run::Run;
use crate::answer::source::Source;
use crate::answer::stop::stop_word;
use std::alloc::AllocError;

/// Makes the graph of a run's end, or a graph without nodes where nothing stops.
pub(crate) fn dot_text(
    source: &Source,
    run: Option<&Run>,
    visited: usize,
) -> Result<String, AllocError> {
    let mut text = String::from_str(source.alloc, "digraph waits {\n")?;
    match run {
        None => writeln!(text, "    label=\"no deadlock, {visited} states\";")?,
        Some(run) => write_graph(&mut text, source, run)?,
    }
    text.push_str("}\n")?;
    Ok(text)
}

/// Appends a node for each stopped party, with what it waits for, and an arrow to each party for which it waits.
fn write_graph(text: &mut String, source: &Source, run: &Run) -> Result<(), AllocError> {
    let stopped = source.plan.stopped(source.alloc, run.last)?;
    writeln!(text, "    label=\"{}\";", stop_word(stopped.as_slice()))?;
    for party in &stopped {
        let name = source.names.party(party.party);
        let mut says = String::from_str(source.alloc, name)?;
        says.push_str(if party.is_refused {
            ": refused "
        } else {
            ": waits for "
        })?;
        write_reason(&mut says, source, party)?;
        text.push_str("    ")?;
        write_text(text, name)?;
        text.push_str(" [label=")?;
        write_text(text, says.as_str())?;
        text.push_str("];\n")?;
    }
    let parties = source.names.parties();
    for edge in &edges_of(source, parties, run.last, stopped.as_slice())? {
        text.push_str("    ")?;
        write_text(text, source.names.party(edge.waiter))?;
        text.push_str(" -> ")?;
        write_text(text, source.names.party(edge.awaited))?;
        if let Some(lock) = edge.lock {
            text.push_str(" [label=")?;
            write_text(text, source.names.lock(lock))?;
            text.push(']')?;
        }
        text.push_str(";\n")?;
    }
    Ok(())
}
