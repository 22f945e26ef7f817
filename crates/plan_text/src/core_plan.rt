//! What is searched: the locks of a plan, and the places of its parties, with their names and lines.
use crate::bad_lines::BadLines;
use crate::begun::{tell_never, tell_unknown};
use crate::names::Names;
use crate::programs::Programs;
use crate::tree::Tree;
use lock_plan::{CallFault, Plan, PlanFault, PlanLock};
use plan_lines::{
    Files, Line, LineAt, LineFault, Origin, Origins, Refusal, Role, Scanned, Sources, TextFault,
    Words, Written, meant, misread, read, scan_plan, write_callers,
};
use std::alloc::{AllocError, Global};
use std::mem::replace;

/// A plan as it is searched.
#[derive(Drop)]
pub struct Core {
    pub names: Names,
    pub locks: Vec<PlanLock>,
    pub programs: Programs,
    /// Whether each party is a server.
    servers: Vec<bool>,
}

/// A plan, its names, and the lines of its places.
#[derive(Drop)]
pub struct NamedPlan {
    pub plan: Plan,
    pub names: Names,
    pub programs: Programs,
}

/// Reads the text of a plan, which is the first of these, and adds the texts of the files that it includes.
///
/// # Errors
///
/// `Lines` with one that includes a file which is not read, or which includes itself. Then `TooLong` if the text is longer than a
/// text may be once it is written out. Then `Lines`: bad ones, in a text with a block open at its end the line after the last; else
/// those that name unknown parties; else the first one that starts a party which never begins. `OutOfMemory` at any time.
pub fn read_plan<F: Files>(
    alloc: Global,
    sources: &mut Sources,
    files: &mut F,
) -> Result<Core, TextFault> {
    // each exit that drops a value of many fields is proved anew, so the work is done on a borrow
    let mut scanned = scan_plan(alloc, sources, files)?;
    read_scanned(alloc, &mut scanned)
}

/// Reads a scanned text, and takes its words.
fn read_scanned(alloc: Global, scanned: &mut Scanned) -> Result<Core, TextFault> {
    let words = replace(&mut scanned.text.words, Words::new(alloc));
    let mut tree = Tree::new(alloc, Names::new(alloc, words));
    tree.origins = replace(&mut scanned.text.origins, Origins::new(alloc));
    let fields = scanned.text.fields.as_slice();
    read_tree(
        alloc,
        &mut tree,
        fields,
        scanned.lines.as_slice(),
        scanned.number,
    )
}

/// Reads lines into a tree, and elaborates it. The line after the last has the number `end`.
fn read_tree(
    alloc: Global,
    tree: &mut Tree,
    fields: &[usize],
    lines: &[Line],
    end: u64,
) -> Result<Core, TextFault> {
    add_lines(alloc, tree, fields, lines, end)?;
    elaborated(alloc, tree)
}

/// Elaborates a tree, and takes its names.
fn elaborated(alloc: Global, tree: &mut Tree) -> Result<Core, TextFault> {
    let mut programs = Programs::new(alloc);
    match programs.add_all(alloc, tree) {
        Ok(()) => Ok(Core::of(alloc, tree, programs)),
        Err(_) => Err(TextFault::OutOfMemory),
    }
}

/// Adds lines to a tree, unless some are bad.
fn add_lines(
    alloc: Global,
    tree: &mut Tree,
    fields: &[usize],
    lines: &[Line],
    end: u64,
) -> Result<(), TextFault> {
    let mut bad = BadLines::new(alloc);
    match add_but_bad(alloc, tree, &mut bad, fields, lines, end) {
        Ok(()) => bad.fault(alloc),
        Err(_) => Err(TextFault::OutOfMemory),
    }
}

/// Adds lines to a tree, but the bad ones, and looks at its end. Of good lines, looks at the parties that they name and start.
fn add_but_bad(
    alloc: Global,
    tree: &mut Tree,
    bad: &mut BadLines,
    fields: &[usize],
    lines: &[Line],
    end: u64,
) -> Result<(), AllocError> {
    add_each(alloc, tree, bad, fields, lines)?;
    if !bad.is_full() {
        if let Some(fault) = tree.end_fault(lines.is_empty()) {
            bad.tell(alloc, tree, LineAt::alone(end), 0, fault)?;
        }
    }
    if bad.is_empty() {
        tell_unknown(alloc, tree, bad)?;
    }
    if bad.is_empty() {
        tell_never(alloc, tree, bad)?;
    }
    Ok(())
}

/// Adds lines to a tree, but the bad ones.
fn add_each(
    alloc: Global,
    tree: &mut Tree,
    bad: &mut BadLines,
    fields: &[usize],
    lines: &[Line],
) -> Result<(), AllocError> {
    for line in lines {
        if bad.is_full() {
            break;
        }
        let words = line.fields(fields);
        match add_line(alloc, tree, *line, words) {
            Ok(()) => {}
            Err(Refusal::OutOfMemory) => return Err(AllocError),
            Err(Refusal::Bad(fault)) => {
                bad.add(alloc, tree, line.at, words, fault)?;
                recover(alloc, tree, bad, *line, words, fault)?;
            }
        }
    }
    Ok(())
}

/// Does what a bad line seems to mean for the lines after it.
fn recover(
    alloc: Global,
    tree: &mut Tree,
    bad: &mut BadLines,
    line: Line,
    fields: &[usize],
    fault: LineFault,
) -> Result<(), AllocError> {
    let Some(form) = meant(&tree.names.words, fields, fault) else {
        return Ok(());
    };
    match form.2 {
        role if role.declares() => {
            if let [_, name, ..] = fields {
                bad.misdeclare(*name)?;
            }
        }
        Role::Party(_) => tree.begin_unnamed(alloc)?,
        _ => tree.turn_misread(line, form, fault)?,
    }
    Ok(())
}

/// Adds a line of these words to the tree.
fn add_line(alloc: Global, tree: &mut Tree, line: Line, fields: &[usize]) -> Result<(), Refusal> {
    if !line.is_utf8 {
        return Err(Refusal::Bad(LineFault::NotUtf8));
    }
    let word = fields.first().copied().unwrap_or(0);
    let words = &tree.names.words;
    let is_uncalled = matches!(line.written, Written::Uncalled);
    match (
        words.form(word),
        read(words, &mut tree.looks, fields, line.written)?,
    ) {
        (Some(form), _) if is_uncalled && form.2.declares() => tree.outside_blocks(word),
        (Some(form), Some(said)) if is_uncalled => tree.turn_uncalled(line.at, form, said),
        (Some(form), Some(said)) => tree.add(alloc, line.at, word, form, said),
        _ => Err(Refusal::Bad(misread(alloc, words, fields)?)),
    }
}

impl Core {
    /// Makes the core of these programs, and takes the names, the locks and the servers of the tree.
    pub(crate) fn of(alloc: Global, tree: &mut Tree, programs: Programs) -> Core {
        Core {
            names: replace(&mut tree.names, Names::new(alloc, Words::new(alloc))),
            locks: replace(&mut tree.locks, Vec::new(alloc)),
            servers: replace(&mut tree.servers, Vec::new(alloc)),
            programs,
        }
    }

    /// Returns whether a party is a server.
    pub(crate) fn is_server(&self, party: usize) -> bool {
        self.servers.get(party).copied().unwrap_or(false)
    }

    /// Returns whether a party is a copy of the one before it.
    pub(crate) fn is_copy(&self, party: usize) -> bool {
        self.programs.is_copy(self.servers.as_slice(), party)
    }

    /// Makes the plan, and takes the parts of the core for it.
    ///
    /// # Errors
    ///
    /// `Lines` with the line of the first act, party by party, that can never be made. Then `TooLarge`. `OutOfMemory` at any
    /// time.
    pub fn take_plan(&mut self, alloc: Global) -> Result<NamedPlan, TextFault> {
        let (programs, copies) = self.programs.alike(alloc, self.servers.as_slice())?;
        let locks = replace(&mut self.locks, Vec::new(alloc));
        let servers = replace(&mut self.servers, Vec::new(alloc));
        match Plan::new(alloc, locks, programs, servers, copies) {
            Ok(plan) => Ok(NamedPlan {
                plan,
                names: replace(&mut self.names, Names::new(alloc, Words::new(alloc))),
                programs: replace(&mut self.programs, Programs::new(alloc)),
            }),
            Err(fault) => Err(self.fault(alloc, fault)),
        }
    }

    /// Returns a fault of the plan, with the line in the place of the party and its place.
    pub fn fault(&self, alloc: Global, fault: PlanFault) -> TextFault {
        match fault {
            PlanFault::Call(row, place, why) => {
                call_fault(alloc, self.programs.origin(row, place), why)
            }
            PlanFault::TooLarge => TextFault::TooLarge,
            PlanFault::OutOfMemory => TextFault::OutOfMemory,
        }
    }
}

/// Makes the fault of a line with a call that can never be made.
fn call_fault(alloc: Global, origin: Origin, why: CallFault) -> TextFault {
    match call_fault_of(alloc, origin, why) {
        Ok(fault) => fault,
        Err(_) => TextFault::OutOfMemory,
    }
}

fn call_fault_of(alloc: Global, origin: Origin, why: CallFault) -> Result<TextFault, AllocError> {
    let mut text = format!(in alloc; "{why}")?;
    write_callers(&mut text, origin)?;
    TextFault::of(alloc, origin, 0, text)
}
