//! Lines `include FILE`: the lines of a file in the place of each line that includes it.
use crate::fault::TextFault;
use crate::files::{FileFault, Files};
use crate::forms::Role;
use crate::line::{Line, Text};
use crate::line_fault::LineFault;
use crate::line_list::LineList;
use crate::origin::Origin;
use crate::scanning::Scanned;
use crate::sources::Sources;
use script_text::SCRIPT_LIMIT;
use std::alloc::{AllocError, Global};

/// The most files that a plan includes.
const MOST_FILES: usize = 64;

/// What the lines of a plan and of its files include.
#[derive(Drop)]
struct Includes {
    /// Where the lines of each file end. Those of the next file begin there.
    ends: Vec<usize>,
    /// For each line the number of the file that it includes.
    targets: Vec<Option<usize>>,
}

/// A file of which the lines are being put in place, and its next line.
#[derive(Clone, Copy)]
struct OpenFile {
    number: usize,
    next: usize,
}

/// Scans the files that a plan includes, and puts the lines of a file in the place of each line that includes it. Adds the texts of
/// the files.
pub(crate) fn include_all<F: Files>(
    alloc: Global,
    scanned: &mut Scanned,
    sources: &mut Sources,
    files: &mut F,
) -> Result<(), TextFault> {
    let mut includes = Includes {
        ends: Vec::new(alloc),
        targets: Vec::new(alloc),
    };
    includes.gather(alloc, scanned, sources, files)?;
    if includes.targets.iter().any(|target| target.is_some()) {
        let mut made = LineList::new(alloc);
        includes.put_all(alloc, scanned, sources, &mut made)?;
        scanned.lines = made.lines;
    }
    Ok(())
}

impl Includes {
    /// Scans the files, and notes which file each line includes.
    fn gather<F: Files>(
        &mut self,
        alloc: Global,
        scanned: &mut Scanned,
        sources: &mut Sources,
        files: &mut F,
    ) -> Result<(), TextFault> {
        for number in 0..=MOST_FILES {
            if number >= sources.count() {
                break;
            }
            if number > 0 {
                scanned.add_file(alloc, number, sources.text(number))?;
            }
            for at in self.targets.len()..scanned.lines.len() {
                let target = match scanned.lines.get(at).copied() {
                    Some(line) => target(alloc, &mut scanned.text, sources, files, line)?,
                    None => None,
                };
                self.targets.push(target)?;
            }
            self.ends.push(scanned.lines.len())?;
        }
        Ok(())
    }

    /// Puts the lines of the plan and of its files one after another.
    fn put_all(
        &self,
        alloc: Global,
        scanned: &mut Scanned,
        sources: &Sources,
        made: &mut LineList,
    ) -> Result<(), TextFault> {
        let mut open = vec![in alloc; OpenFile { number: 0, next: 0 }]?;
        // each line has two bytes at least, and one that includes a file has ten
        for _step in 0..SCRIPT_LIMIT {
            let Some((at, line)) = self.next(scanned.lines.as_slice(), &mut open) else {
                if open.is_empty() {
                    break;
                }
                continue;
            };
            match self.target_of(at) {
                None => made.push(line)?,
                Some(number) if open.iter().any(|file| file.number == number) => {
                    let word = scanned.text.words.number(alloc, sources.name(number))?;
                    let why = LineFault::IncludesItself(word);
                    return Err(bad_include(alloc, &scanned.text, line, why)?);
                }
                Some(number) => {
                    made.count(line)?;
                    let next = self.first(number);
                    open.push(OpenFile { number, next })?;
                }
            }
        }
        Ok(())
    }

    /// Returns the next line of the innermost open file, with its place, or closes the file.
    fn next(&self, lines: &[Line], open: &mut Vec<OpenFile>) -> Option<(usize, Line)> {
        let file = open.last_mut()?;
        let at = file.next;
        if at < self.ends.get(file.number).copied().unwrap_or(0) {
            file.next = at.saturating_add(1);
            return Some((at, *lines.get(at)?));
        }
        open.pop();
        None
    }

    /// Returns where the lines of a file begin.
    fn first(&self, number: usize) -> usize {
        match number.checked_sub(1) {
            Some(before) => self.ends.get(before).copied().unwrap_or(0),
            None => 0,
        }
    }

    /// Returns the file that the line at this place includes.
    fn target_of(&self, at: usize) -> Option<usize> {
        self.targets.get(at).copied().flatten()
    }
}

/// Returns the number of the file that a line includes. A new file is read.
fn target<F: Files>(
    alloc: Global,
    text: &mut Text,
    sources: &mut Sources,
    files: &mut F,
    line: Line,
) -> Result<Option<usize>, TextFault> {
    let [_, word] = text.fields(line) else {
        return Ok(None);
    };
    if !line.is_utf8 || !text.has_role(line, Role::Include) {
        return Ok(None);
    }
    let name = reached(alloc, sources.name(line.at.file), text.words.text(*word))?;
    if let Some(number) = sources.number(name.as_str()) {
        return Ok(Some(number));
    }
    match read(alloc, sources, files, name.as_str()) {
        Ok(bytes) => {
            text.origins.add_file(alloc, name.as_str())?;
            Ok(Some(sources.add(name, bytes)?))
        }
        Err(FileFault::OutOfMemory) => Err(TextFault::OutOfMemory),
        Err(why) => {
            let word = text.words.number(alloc, name.as_str())?;
            Err(bad_include(alloc, text, line, LineFault::Unread(word, why))?)
        }
    }
}

/// Makes the name by which a file is reached: a word of a line, in the folder of the file that has the line.
fn reached(alloc: Global, from: &str, word: &str) -> Result<String, AllocError> {
    match from.rsplit_once('/') {
        Some((folder, _)) if !word.starts_with('/') => format!(in alloc; "{folder}/{word}"),
        _ => String::from_str(alloc, word),
    }
}

/// Reads a file, if the plan may have one more of its length.
fn read<F: Files>(
    alloc: Global,
    sources: &Sources,
    files: &mut F,
    name: &str,
) -> Result<Vec<u8>, FileFault> {
    if sources.count() > MOST_FILES {
        return Err(FileFault::TooMany);
    }
    let bytes = files.read(alloc, name)?;
    if sources.bytes().saturating_add(bytes.len()) > SCRIPT_LIMIT {
        return Err(FileFault::TooLong);
    }
    Ok(bytes)
}

/// Makes the fault of a line that includes a file.
fn bad_include(
    alloc: Global,
    text: &Text,
    line: Line,
    fault: LineFault,
) -> Result<TextFault, AllocError> {
    let origin = Origin::new(line.at, &text.origins);
    let why = fault.why_from(alloc, &text.words, origin)?;
    TextFault::of(alloc, origin, 1, why)
}
