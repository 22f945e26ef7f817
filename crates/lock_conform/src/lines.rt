//! The lines of a script.
ghost use Rattle.std.specs.Prelude.{◌≡◌, length};

use crate::script_call::ScriptCall;
use lock_desk::Desk;
use lock_machine::{Call, Reply};
use lock_modes::Fault;
use lock_script::{DeskScript, Pair, PairOp, ParsedScript, make_desk};
use lock_states::word::PackedWord;
use std::alloc::Global;

/// The calls of a script, with the replies of the `Desk`.
#[derive(Drop)]
pub struct Lines {
    calls: Vec<Call<PairOp>>,
    replies: Vec<Reply<i64>>,
    ghost one_each: { length calls.items ≡ length replies.items },
}

impl Lines {
    ghost use Rattle.std.specs.Prelude.{◌≡◌, ◌<◌, ◌↔◌, IfOk, IfErr, length};
    ghost use Rattle.std.specs.List.{slice_get};
    ghost use Rattle.lock_modes.specs.Limits.{IsMakerFault};
    ghost use Rattle.lock_script.specs.Session.{HasLimits, replies_to};

    /// Runs the script on a `Desk`.
    pub fn of_script(alloc: Global, script: DeskScript) -> Result<Lines, Fault>
        ensures limits { (result ≡ Err Fault.BadLimits) ↔ (HasLimits script.maker → ⊥) }
        ensures fault { IfErr result IsMakerFault }
        ensures calls { IfOk result (λ lines. lines.calls.items ≡ script.calls.items) }
        ensures replies { IfOk result (λ lines.
            lines.replies.items ≡ replies_to script.maker script.calls.items) }
    {
        let ParsedScript { maker, calls } = script;
        let mut desk: Desk<PackedWord, Pair> = make_desk(alloc, maker)?;
        let replies = desk.run(alloc, calls.as_slice())?;
        Ok(Lines { calls, replies })
    }

    /// Returns how many lines there are.
    pub(crate) fn len(&self) -> usize
        ensures { result ≡ length self.now.replies.items }
    {
        self.replies.len()
    }

    /// Returns the line at a place.
    pub(crate) fn line(&self, at: usize) -> ScriptCall
        requires { at < length self.now.replies.items }
        ensures call { slice_get self.now.calls.items at ≡ Some result.call }
        ensures wanted { slice_get self.now.replies.items at ≡ Some result.wanted }
    {
        ScriptCall {
            call: self.calls[at],
            wanted: self.replies[at],
        }
    }
}
