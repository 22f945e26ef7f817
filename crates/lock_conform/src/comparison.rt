//! A script's lines, with the answers of a lock so far.
ghost use Rattle.std.specs.Prelude.{◌≡◌, length, take, IfSome};
ghost use Rattle.lock_conform.specs.Differences.{IsAt};
ghost use Rattle.lock_conform.specs.Entries.{replies_of};

use crate::lines::Lines;
use crate::report::{Difference, Report, ReportEntry};
use crate::script_call::ScriptCall;
use lock_machine::Reply;
use lock_recorder::CallLog;
use std::alloc::{AllocError, Global};

/// The lines of a script, and the answers of a lock so far: the first replies of the `Desk`, up to a difference.
#[derive(Drop)]
pub struct Comparison {
    alloc: Global,
    lines: Lines,
    entries: Vec<ReportEntry>,
    difference: Option<Difference>,
    log: CallLog,
    /// A party announced itself. The shared locks have no such call, so no later call is made on the lock.
    is_barred: bool,
    ghost first: { replies_of entries.items ≡ take (length entries.items) lines.replies.items },
    ghost differs: { ∥ IfSome difference (IsAt lines.calls.items lines.replies.items (length entries.items)) ∥₁ },
}

impl Comparison {
    ghost use Rattle.std.specs.Prelude.{◌≢◌, ◌<◌, ◌≤◌, IfOk, IsSome, IsTrue, All};
    ghost use Rattle.std.specs.List.{slice_get};
    ghost use Rattle.lock_conform.specs.Done.{lines_done};
    ghost use Rattle.lock_conform.specs.Entries.{IsSilentIfRefused};
    ghost use Rattle.lock_conform.specs.Refusals.{IsOutright};

    /// Makes the comparison without answers. The log has the raw calls of the lock.
    pub fn new(alloc: Global, lines: Lines, log: CallLog) -> Comparison
        ensures { result.lines ≡ lines }
    {
        Comparison {
            alloc,
            lines,
            entries: Vec::new(alloc),
            difference: None,
            log,
            is_barred: false,
        }
    }

    /// Returns the lines.
    pub fn lines(&self) -> &Lines
        ensures { result.now ≡ self.now.lines }
    {
        &self.lines
    }

    /// Returns how many lines are done: the answered ones, or all after a difference.
    pub fn done(&self) -> usize
        ensures { result ≡ lines_done self.now }
    {
        if self.difference.is_some() {
            self.lines.len()
        } else {
            self.entries.len()
        }
    }

    /// Returns the next line.
    pub fn next(&self) -> ScriptCall
        requires { lines_done self.now < length self.now.lines.replies.items }
    {
        self.lines.line(self.entries.len())
    }

    /// Returns whether an answer differed.
    pub fn has_difference(&self) -> bool {
        self.difference.is_some()
    }

    /// Returns whether the line is made on the lock. After an announcement, which the shared locks lack, no line is.
    pub fn makes(&self, line: ScriptCall) -> bool
        ensures { IsTrue result → ¬ IsOutright line.wanted }
    {
        line.is_made() && !self.is_barred
    }

    /// Answers the next line, if the reply is the `Desk`'s. Another reply is the difference.
    pub fn answer(&mut self, found: Reply<i64>) -> Result<(), AllocError>
        ensures lines { self.new.lines ≡ self.old.lines }
        ensures told { self.old.difference ≡ None → length self.old.entries.items < length self.old.lines.replies.items
            → slice_get self.old.lines.replies.items (length self.old.entries.items) ≢ Some found
            → IsSome self.new.difference }
        ensures done { lines_done self.old ≤ lines_done self.new }
        ensures next { IfOk result (λ _. lines_done self.old < length self.old.lines.replies.items
            → lines_done self.old < lines_done self.new) }
    {
        let at = self.entries.len();
        if self.difference.is_some() || self.lines.len() <= at {
            return Ok(());
        }
        let line = self.lines.line(at);
        if found != line.wanted {
            self.difference = Some(Difference {
                line: at as u64 + 2,
                call: line.call,
                wanted: line.wanted,
                found,
            });
            return Ok(());
        }
        let raw_calls = if self.makes(line) {
            self.log.take().unwrap_or(Vec::new(self.alloc))
        } else {
            Vec::new(self.alloc)
        };
        let entry = ReportEntry {
            reply: line.wanted,
            raw_calls,
        };
        self.entries.push(entry)?;
        self.is_barred = self.is_barred || line.sets_bar();
        Ok(())
    }

    #[tactic(auto, using(crate::proofs::Answered::all_silent, crate::proofs::Answered::all_done))]
    /// Returns the answers, with the raw calls after them.
    pub fn into_report(self) -> Report
        ensures entries { result.entries ≡ self.entries }
        ensures difference { result.difference ≡ self.difference }
        ensures first { replies_of result.entries.items
            ≡ take (length result.entries.items) self.lines.replies.items }
        ensures all { length self.lines.replies.items ≤ lines_done self → result.difference ≡ None
            → replies_of result.entries.items ≡ self.lines.replies.items }
        ensures differs { ∥ IfSome result.difference
            (IsAt self.lines.calls.items self.lines.replies.items (length result.entries.items)) ∥₁ }
        ensures silent { All IsSilentIfRefused result.entries.items }
    {
        let Comparison {
            alloc,
            lines: _,
            entries,
            difference,
            log,
            is_barred: _,
        } = self;
        Report {
            entries,
            difference,
            last_calls: log.take().unwrap_or(Vec::new(alloc)),
        }
    }
}
