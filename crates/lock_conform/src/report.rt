//! What came of a script.
ghost use Rattle.std.specs.Prelude.{◌≡◌, []};
ghost use Rattle.lock_conform.specs.Refusals.{IsOutright};

use lock_machine::{Call, Reply};
use lock_recorder::RawCall;
use lock_script::PairOp;

/// What came of a script on a lock.
#[derive(Drop)]
pub struct Report {
    /// The answers to the lines after the first, up to a difference.
    pub entries: Vec<ReportEntry>,
    /// The first answer that differs from the `Desk`'s.
    pub difference: Option<Difference>,
    /// The raw calls of the guards that are released at the end.
    pub last_calls: Vec<RawCall>,
}

/// The answer to a line of a script, and the raw calls that the line made. A call that the `Desk` refuses makes none,
/// unless it is refused because it would block.
#[derive(Drop)]
pub struct ReportEntry {
    pub reply: Reply<i64>,
    pub raw_calls: Vec<RawCall>,
    pub ghost silent: { IsOutright reply → raw_calls.items ≡ [] },
}

/// The answer of a lock to a line of a script, where the `Desk` replies otherwise.
#[derive(Clone, Copy, PartialEq, Eq, Debug)]
pub struct Difference {
    /// The line of the script, counted from 1.
    pub line: u64,
    pub call: Call<PairOp>,
    /// The reply of the `Desk`.
    pub wanted: Reply<i64>,
    /// The reply of the lock.
    pub found: Reply<i64>,
}
