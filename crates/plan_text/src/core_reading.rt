//! Reading the text of a core.
use crate::bad_lines::word_of;
use crate::core_act::act;
use crate::core_plan::Core;
use crate::core_text::has_two_ways;
use crate::names::Names;
use crate::programs::Programs;
use crate::tree::Tree;
use lock_plan::ProgramPlace;
use plan_lines::{
    Line, LineAt, LineFault, Origin, Origins, Refusal, Role, Scanned, TextFault, Words, Written,
    read, scan,
};
use script_text::unsigned;
use std::alloc::{AllocError, Global};
use std::mem::replace;

/// The places of a party so far.
#[derive(Drop)]
struct Below {
    /// How many parties have them, or `None` above the first party.
    parties: Option<usize>,
    places: Vec<ProgramPlace>,
    lines: Vec<LineAt>,
    /// The last place to which a way leads, and the number of that line.
    farthest: (usize, u64),
}

/// Reads the text of a core, as [`Core::text`] makes it.
///
/// # Errors
///
/// The first bad line, in a text without lines the line after the last. `OutOfMemory` at any time.
pub fn read_core(alloc: Global, bytes: &[u8]) -> Result<Core, TextFault> {
    let mut scanned = scan(alloc, bytes)?;
    read_scanned(alloc, &mut scanned)
}

/// Reads a scanned core, and takes its words.
fn read_scanned(alloc: Global, scanned: &mut Scanned) -> Result<Core, TextFault> {
    let words = replace(&mut scanned.text.words, Words::new(alloc));
    let mut tree = Tree::new(alloc, Names::new(alloc, words));
    read_lines(alloc, &mut tree, scanned)
}

/// Reads the lines into a tree of names, and into programs.
fn read_lines(alloc: Global, tree: &mut Tree, scanned: &Scanned) -> Result<Core, TextFault> {
    let fields = scanned.text.fields.as_slice();
    let lines = scanned.lines.as_slice();
    add_names(alloc, tree, fields, lines)?;
    if lines.is_empty() {
        let bad = (scanned.number, 0, LineFault::NothingSaid);
        return Err(fault(alloc, &tree.names.words, &tree.origins, bad));
    }
    let mut programs = Programs::new(alloc);
    match add_parts(alloc, &tree.names, &mut programs, fields, lines) {
        Ok(()) => Ok(Core::of(alloc, tree, programs)),
        Err(fault) => Err(fault),
    }
}

/// Adds the programs of the parties, and those of the counters.
fn add_parts(
    alloc: Global,
    names: &Names,
    programs: &mut Programs,
    fields: &[usize],
    lines: &[Line],
) -> Result<(), TextFault> {
    add_programs(alloc, names, programs, fields, lines)?;
    programs.add_counters(alloc, names.counters.as_slice())?;
    Ok(())
}

/// Adds what the lines declare, and the names of the parties.
fn add_names(
    alloc: Global,
    tree: &mut Tree,
    fields: &[usize],
    lines: &[Line],
) -> Result<(), TextFault> {
    for line in lines {
        match add_name(alloc, tree, *line, line.fields(fields)) {
            Ok(()) => {}
            Err(Refusal::OutOfMemory) => return Err(TextFault::OutOfMemory),
            Err(Refusal::Bad(why)) => {
                let words = &tree.names.words;
                let word = word_of(words, line.fields(fields), why);
                return Err(fault(alloc, words, &tree.origins, (line.at.number, word, why)));
            }
        }
    }
    Ok(())
}

/// Adds what a line declares, or the names of its parties.
fn add_name(alloc: Global, tree: &mut Tree, line: Line, fields: &[usize]) -> Result<(), Refusal> {
    if !line.is_utf8 {
        return Err(Refusal::Bad(LineFault::NotUtf8));
    }
    let [word, names @ ..] = fields else {
        return Ok(());
    };
    let Some(form) = tree.names.words.form(*word) else {
        return Ok(());
    };
    match form.2 {
        Role::Lock(_) | Role::Counter(_) | Role::Condvar => {
            match read(&tree.names.words, &mut tree.looks, fields, Written::No)? {
                Some(said) => tree.add(alloc, line.at, *word, form, said),
                None => Err(Refusal::Bad(LineFault::Form(form))),
            }
        }
        Role::Party(_) if names.is_empty() => Err(Refusal::Bad(LineFault::Form(form))),
        Role::Party(is_server) => {
            for name in names {
                tree.add_named(*name, is_server)?;
            }
            Ok(())
        }
        _ => Ok(()),
    }
}

/// Adds the programs of the parties.
fn add_programs(
    alloc: Global,
    names: &Names,
    programs: &mut Programs,
    fields: &[usize],
    lines: &[Line],
) -> Result<(), TextFault> {
    let mut below = Below::new(alloc);
    for line in lines {
        let read = match below.add(alloc, names, programs, *line, line.fields(fields)) {
            Ok(read) => read,
            Err(_) => return Err(TextFault::OutOfMemory),
        };
        if let Err(bad) = read {
            return Err(fault(alloc, &names.words, &programs.origins, bad));
        }
    }
    match below.end(alloc, programs)? {
        Ok(()) => Ok(()),
        Err(bad) => Err(fault(alloc, &names.words, &programs.origins, bad)),
    }
}

/// The number of a bad line, which of its words is wrong, and why.
type Bad = (u64, usize, LineFault);

/// Makes the fault of a bad line.
fn fault(alloc: Global, words: &Words, origins: &Origins, bad: Bad) -> TextFault {
    let origin = Origin::new(LineAt::alone(bad.0), origins);
    let made = match bad.2.why(alloc, words, origins) {
        Ok(why) => TextFault::of(alloc, origin, bad.1, why),
        Err(refused) => Err(refused),
    };
    match made {
        Ok(fault) => fault,
        Err(_) => TextFault::OutOfMemory,
    }
}

impl Below {
    fn new(alloc: Global) -> Below {
        Below {
            parties: None,
            places: Vec::new(alloc),
            lines: Vec::new(alloc),
            farthest: (0, 0),
        }
    }

    /// Adds the line of a place, or begins the places of other parties.
    fn add(
        &mut self,
        alloc: Global,
        names: &Names,
        programs: &mut Programs,
        line: Line,
        fields: &[usize],
    ) -> Result<Result<(), Bad>, AllocError> {
        let [word, rest @ ..] = fields else {
            return Ok(Ok(()));
        };
        match names.words.form(*word).map(|form| form.2) {
            Some(Role::Lock(_) | Role::Counter(_) | Role::Condvar) => Ok(Ok(())),
            Some(Role::Party(_)) => {
                let ended = self.end(alloc, programs)?;
                self.parties = Some(rest.len());
                Ok(ended)
            }
            _ => self.add_place(alloc, names, programs, line.at.number, fields),
        }
    }

    fn add_place(
        &mut self,
        alloc: Global,
        names: &Names,
        programs: &mut Programs,
        number: u64,
        fields: &[usize],
    ) -> Result<Result<(), Bad>, AllocError> {
        if self.parties.is_none() {
            let word = fields.first().copied().unwrap_or(0);
            return Ok(Err((number, 0, LineFault::NoParty(word))));
        }
        let next = self.places.len().saturating_add(1) as u64;
        match read_place(names, next, fields) {
            Ok((place, written)) => {
                self.note(number, place.next);
                self.note(number, place.other);
                self.places.push(place)?;
                let line = line_at(alloc, &names.words, programs, number, written)?;
                self.lines.push(line)?;
                Ok(Ok(()))
            }
            Err(why) => Ok(Err((number, word_of(&names.words, fields, why), why))),
        }
    }

    /// Notes a way of the line with this number.
    fn note(&mut self, number: u64, way: usize) {
        if way != usize::MAX && (self.farthest.1 == 0 || way > self.farthest.0) {
            self.farthest = (way, number);
        }
    }

    /// Adds the program of the parties, and forgets it.
    fn end(
        &mut self,
        alloc: Global,
        programs: &mut Programs,
    ) -> Result<Result<(), Bad>, AllocError> {
        let Some(parties) = self.parties else {
            return Ok(Ok(()));
        };
        let end = self.places.len();
        if self.farthest.1 > 0 && self.farthest.0 >= end {
            return Ok(Err((self.farthest.1, 0, LineFault::NoSuchPlace)));
        }
        for at in 0..end {
            if let Some(place) = self.places.get_mut(at) {
                place.next = place.next.min(end);
                place.other = place.other.min(end);
            }
        }
        let places = replace(&mut self.places, Vec::new(alloc));
        let lines = replace(&mut self.lines, Vec::new(alloc));
        self.farthest = (0, 0);
        programs.add_shared(places, lines, parties)?;
        Ok(Ok(()))
    }
}

/// Makes the line of a place in the line of a core with this number: the one that it names, or its own.
fn line_at(
    alloc: Global,
    words: &Words,
    programs: &mut Programs,
    own: u64,
    written: Option<FromLine<'_>>,
) -> Result<LineAt, AllocError> {
    let Some((line, callers)) = written else {
        return Ok(LineAt::alone(own));
    };
    let mut call = 0usize;
    for caller in callers.iter().rev() {
        if let Some(line) = named_line(words.text(*caller)) {
            let at = line_of(alloc, programs, line, call)?;
            programs.origins.calls.push(at)?;
            call = programs.origins.calls.len();
        }
    }
    line_of(alloc, programs, line, call)
}

/// Makes the line with this name, for which this call is written out.
fn line_of(
    alloc: Global,
    programs: &mut Programs,
    line: NamedLine<'_>,
    call: usize,
) -> Result<LineAt, AllocError> {
    let (name, number) = line;
    let file = if name.is_empty() {
        0
    } else {
        programs.origins.add_file(alloc, name)?
    };
    Ok(LineAt { number, file, call })
}

/// The name of the included file that has a line, or an empty one, and the number of the line.
type NamedLine<'a> = (&'a str, u64);

/// Reads `LINE` or `FILE:LINE`.
fn named_line(word: &str) -> Option<NamedLine<'_>> {
    match word.rsplit_once(':') {
        None => Some(("", unsigned(word)?)),
        Some(("", _)) => None,
        Some((file, number)) => Some((file, unsigned(number)?)),
    }
}

/// What the line of a place says of a line of the plan: that line, and the words after it.
type FromLine<'a> = (NamedLine<'a>, &'a [usize]);

/// A place, and what its line says of a line of the plan.
type ReadPlace<'a> = (ProgramPlace, Option<FromLine<'a>>);

/// Reads the line of a place with this number.
fn read_place<'a>(
    names: &'a Names,
    next: u64,
    fields: &'a [usize],
) -> Result<ReadPlace<'a>, LineFault> {
    let words = &names.words;
    let arrow = arrow_of(words, fields);
    if arrow < 1 || arrow >= fields.len() {
        return Err(LineFault::NoPlace);
    }
    let number = fields.first().copied().unwrap_or(0);
    if unsigned(words.text(number)) != Some(next) {
        return Err(LineFault::NoPlaceNumber(number, next));
    }
    let act = act(names, &fields[1..arrow])?;
    let Some((first, second, line)) = read_ways(words, &fields[arrow..]) else {
        return Err(LineFault::NoPlace);
    };
    if second.is_some() != has_two_ways(act) {
        return Err(LineFault::NoPlace);
    }
    let place = ProgramPlace {
        act,
        next: first,
        other: second.unwrap_or(first),
    };
    Ok((place, line))
}

/// Returns where the arrow is among words, or their number.
fn arrow_of(words: &Words, fields: &[usize]) -> usize {
    let mut before = 0usize;
    for field in fields {
        if words.is(*field, "->") {
            break;
        }
        before = before.saturating_add(1);
    }
    before
}

/// What comes after an act: one way or two, and perhaps a line of the plan.
type Ways<'a> = (usize, Option<usize>, Option<FromLine<'a>>);

/// Reads what comes after an act, from the arrow on.
fn read_ways<'a>(words: &'a Words, fields: &'a [usize]) -> Option<Ways<'a>> {
    let (first, second, rest) = match fields {
        [_, first, bar, second, rest @ ..] if words.is(*bar, "|") => {
            (*first, Some(way(words, *second)?), rest)
        }
        [_, first, rest @ ..] => (*first, None, rest),
        _ => return None,
    };
    let line = match rest {
        [] => None,
        [word, number, callers @ ..] if words.is(*word, "line") && are_callers(words, callers) => {
            Some((named_line(words.text(*number))?, callers))
        }
        _ => return None,
    };
    Some((way(words, first)?, second, line))
}

/// Returns whether words are `from` and a line, any number of times.
fn are_callers(words: &Words, fields: &[usize]) -> bool {
    for (at, field) in fields.iter().enumerate() {
        let is_right = if at % 2 == 0 {
            words.is(*field, "from")
        } else {
            named_line(words.text(*field)).is_some()
        };
        if !is_right {
            return false;
        }
    }
    fields.len() % 2 == 0
}

/// Reads a way: the number of a place, or `end`.
fn way(words: &Words, field: usize) -> Option<usize> {
    if words.is(field, "end") {
        return Some(usize::MAX);
    }
    let number = unsigned(words.text(field))?;
    usize::try_from(number).ok()?.checked_sub(1)
}
