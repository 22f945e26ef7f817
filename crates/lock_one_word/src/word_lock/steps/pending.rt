//! A call and its next action.
ghost use Rattle.std.specs.Prelude.{◌≡◌, ◌≢◌, ◌+◌, ◌<◌, ◌^◌, ◌-◌, true, false, is_ok, MatchResult};
ghost use Rattle.lock_one.specs.Answers.{HasCause};
ghost use Rattle.lock_one.specs.declared.action.Action.TheVariants.{End};
ghost use Rattle.lock_one.specs.Machine.{acquiring, next_of, taking};
ghost use Rattle.lock_one_word.specs.Drives.{at, ended_with, says_yes, MayEnd};

use crate::word_lock::steps::ended::Ended;
use lock_one::{Action, WordCall};
use lock_word::{Down, ExWant};
use std::marker::Model;

/// A call and its next action.
///
/// It has no `Drop`, so a body cannot forget a call whose next action is a wake-up. Only the functions that make an action pass
/// it on, and it ends with the call.
pub(crate) struct Pending {
    call: WordCall,
    action: Action,
    /// How many exchanges the call has made.
    exchanges: u64,
}

impl Model for Pending {
    ghost use Rattle.lock_one.specs.Answers.{HasCause};
    ghost use Rattle.lock_one_word.specs.Drives.{Pending};

    ghost Value = { Pending };

    ghost view = { λ p. record { call = p.call; action = p.action; exchanges = p.exchanges } };

    ghost invariant = { λ p. HasCause p.call };
}

#[tactic(auto, using(crate::proofs::Causes::begins, crate::proofs::Causes::begins_release, crate::proofs::Causes::goes_on))]
impl Pending {
    /// Begins a call that acquires or upgrades.
    pub(crate) fn acquire(readers: u64, want: ExWant, blocks: bool) -> Pending
        ensures begun { at result ≡ acquiring readers want blocks true }
        ensures fresh { result.exchanges ≡ 0 }
    {
        let (call, action) = WordCall::acquire(readers, want, blocks, true);
        Pending {
            call,
            action,
            exchanges: 0,
        }
    }

    /// Begins a call that releases or downgrades.
    pub(crate) fn release(readers: u64, down: Down) -> Pending
        ensures { at result ≡ taking readers down }
    {
        let (call, action) = WordCall::release(readers, down);
        Pending {
            call,
            action,
            exchanges: 0,
        }
    }

    /// Returns the next action.
    pub(crate) fn action(&self) -> Action
        ensures { result ≡ self.now.action }
    {
        self.action
    }

    /// Returns whether the call has made as many exchanges as it can count.
    pub(crate) fn is_spent(&self) -> bool
        ensures spent { result ≡ true → self.now.exchanges ≡ 2 ^ 64 - 1 }
        ensures left { result ≢ true → self.now.exchanges < 2 ^ 64 - 1 }
    {
        self.exchanges == u64::MAX
    }

    /// Goes on with what the action found. Only the functions that make an action can call this.
    pub(super) fn go_on(&mut self, found: u64)
        ensures goes { at self.new ≡ next_of found self.old.call }
        ensures exchanges { self.new.exchanges ≡ self.old.exchanges }
    {
        self.action = self.call.next(found);
    }

    /// Counts an exchange.
    pub(super) fn count(&mut self)
        ensures same { at self.new ≡ at self.old }
        ensures counted { self.old.exchanges < 2 ^ 64 - 1 → self.new.exchanges ≡ self.old.exchanges + 1 }
    {
        self.exchanges = self.exchanges.saturating_add(1);
    }

    /// Ends a call that asks for its end, or a try before its exchange, of which nobody knows.
    pub(crate) fn end(self) -> Ended
        requires { MayEnd (at self) }
        ensures has_cause { HasCause self.call }
        ensures end { result ≡ ended_with self (says_yes self.action) }
    {
        let Pending {
            call,
            action,
            exchanges,
        } = self;
        Ended {
            readers: call.readers,
            upgrades: matches!(call.want, ExWant::Upgrade),
            blocks: call.blocks,
            acquired: matches!(action, Action::End(true)),
            word: call.loaded,
            late: call.late,
            exchanges,
        }
    }

    /// Ends a call with the answer that it asks for.
    pub(crate) fn answer(self, answer: bool) -> Result<Ended, Ended>
        requires { self.action ≡ End answer }
        ensures answer { is_ok result ≡ answer }
        ensures has_cause { HasCause self.call }
        ensures end { MatchResult result (λ end. end ≡ ended_with self true) (λ end. end ≡ ended_with self false) }
    {
        let ended = self.end();
        if answer { Ok(ended) } else { Err(ended) }
    }
}
