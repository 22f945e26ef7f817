//! A line of a script.
use lock_machine::{Call, Form, Reply};
use lock_modes::Fault;
use lock_script::PairOp;

/// A line of a script: a call, and the reply of the `Desk`.
#[derive(Clone, Copy)]
pub struct ScriptCall {
    pub call: Call<PairOp>,
    pub wanted: Reply<i64>,
}

impl ScriptCall {
    ghost use Rattle.std.specs.Prelude.{◌≡◌, ◌↔◌, IsTrue};
    ghost use Rattle.lock_conform.specs.Refusals.{IsOutright};

    /// Returns whether the call is made on a lock. It is not if the `Desk` refuses it, unless it would block, or if the
    /// shared locks have no such call.
    pub fn is_made(self) -> bool
        ensures { IsTrue result → ¬ IsOutright self.wanted }
    {
        match self.wanted {
            Reply::Refused(fault) => fault == Fault::WouldWait,
            _ => !matches!(
                self.call,
                Call::Announce(_) | Call::Withdraw(_) | Call::IsBarred | Call::Spent
            ),
        }
    }

    /// Returns whether the `Desk` replies `Done`.
    pub fn is_done(self) -> bool
        ensures { IsTrue result ↔ (self.wanted ≡ Reply.Done) }
    {
        matches!(self.wanted, Reply::Done)
    }

    /// Returns whether the call sets the bar.
    pub fn sets_bar(self) -> bool {
        self.is_done() && matches!(self.call, Call::Announce(_))
    }

    /// Returns the call as it is made on a lock: one that would block is made as a try.
    pub fn made(self) -> Call<PairOp> {
        if !self.would_wait() {
            return self.call;
        }
        match self.call {
            Call::Acquire(want, _, party) => Call::Acquire(want, Form::Try, party),
            Call::Upgrade(_, party, number) => Call::Upgrade(Form::Try, party, number),
            Call::WithUpgraded(_, party, number, operation) => {
                Call::WithUpgraded(Form::Try, party, number, operation)
            }
            call => call,
        }
    }

    /// Returns the form in which a parked guard is acquired again.
    pub fn resume_form(self) -> Form {
        if self.would_wait() {
            Form::Try
        } else {
            Form::Block
        }
    }

    /// Returns the reply as the `Desk` gives it: a refused try of a call that would block is that refusal.
    pub fn told(self, reply: Reply<i64>) -> Reply<i64> {
        if self.would_wait() && matches!(reply, Reply::NoGuard) {
            Reply::Refused(Fault::WouldWait)
        } else {
            reply
        }
    }

    /// Returns whether the `Desk` says that the call would block.
    fn would_wait(self) -> bool {
        matches!(self.wanted, Reply::Refused(Fault::WouldWait))
    }
}
