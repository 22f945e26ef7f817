//! An arbiter that admits in the order of arrival.
mod step;
mod token;

use crate::fair_wake::FairWake;
use crate::line::{Line, Ticket};
use lock_modes::{Bag, Fault, Mode};
use lock_raws_monitor::{Arbiter, upgraded};
use std::alloc::Global;
use std::marker::Model;
pub use step::FairStep;
pub use token::{FairToken, PendingUpgrade};

/// An arbiter with a line of tickets. It admits the first ticket that waits, and a caller without a ticket only if no
/// ticket waits. While an upgrade waits, it admits no acquisition.
///
/// It needs no bar of the arbiter, so the arbiter may be one without bars.
#[derive(Drop)]
pub struct FairArbiter<A: Arbiter> {
    arbiter: A,
    line: Line,
    upgrade_waits: bool,
}

impl<A: Arbiter> Model for FairArbiter<A> {
    ghost use Rattle.std.specs.Prelude.{◌≡◌, false};
    ghost use Rattle.lock_raws_fair.specs.FairState.{FairState};

    ghost Value = { FairState A.Token };

    ghost view = { λ q. record {
      tokens_out = A.tokens_out q.arbiter;
      upgrade_waits = q.upgrade_waits;
      readers = A.reader_limit q.arbiter;
      line = q.line;
    } };

    ghost invariant = { λ q. A.bar q.arbiter ≡ false };
}

impl<A: Arbiter> FairArbiter<A> {
    ghost use Rattle.std.specs.Prelude.{◌≡◌, ◌↔◌, ◌-◌, ◌^◌, ◌<◌, ◌&&◌, ◌||◌, not, true, false, [], is_some, is_ok, nat_lt, IfOk, IfErr, IfSome, IfNone, IsTrue};
    ghost use Rattle.lock_modes.specs.declared.mode.Mode.TheVariants.{Upgradable, Exclusive};
    ghost use Rattle.lock_modes.specs.Modes.{tokens, AreCompatible, may_become};
    ghost use Rattle.lock_modes.specs.Tokens.{bag_of_tokens, Adds, Removes, Replaces, IsOutAs};
    ghost use Rattle.lock_modes.specs.Limits.{IsLimit, IsMakerFault};
    ghost use Rattle.lock_raws_fair.specs.declared.line.step.LineStep.TheVariants.{Arrive, Enter, Leave, Pass};
    ghost use Rattle.lock_raws_fair.specs.declared.line.TheConstants.{TIMED_SPAN};
    ghost use Rattle.lock_raws_fair.specs.Tickets.{Makes, empty_line, span, may_leave};
    ghost use Rattle.lock_raws_fair.specs.LineLaws.{IsReached, IsEarliest};
    ghost use Rattle.lock_raws.specs.Downgrades.{is_downgrade};
    ghost use Rattle.lock_raws_fair.specs.FairState.{FairState, may_pass, may_enter, KeepsTokens, KeepsLine};
    ghost use Rattle.lock_raws_fair.specs.FairWaking.{WakesAfterLineStep, WakesAfterTokenStep};
    ghost use Rattle.lock_raws_fair.specs.declared.fair_arbiter.step.FairStep.TheVariants as fair;
    ghost use Rattle.lock_raws_fair.specs.FairSteps.{MakesFairStep, end_of, announcement};

    /// Makes an arbiter without tokens and with an empty line.
    ///
    /// # Errors
    ///
    /// `BadLimits` if `readers` is out of range, else `OutOfMemory`.
    pub fn new(alloc: Global, readers: u64) -> Result<FairArbiter<A>, Fault>
        ensures limits { (result ≡ Err Fault.BadLimits) ↔ (IsLimit readers → ⊥) }
        ensures in_range { IfOk result (λ _. IsLimit readers) }
        ensures fault { IfErr result IsMakerFault }
        ensures empty { IfOk result (λ made. made ≡ record { tokens_out = []; upgrade_waits = false; readers = readers; line = empty_line }) }
    {
        let arbiter: A = Arbiter::new(alloc, readers)?;
        Ok(FairArbiter {
            arbiter,
            line: Line::new(),
            upgrade_waits: false,
        })
    }

    /// Proves that permitted steps lead from the empty line to this one's. It holds whatever calls threads made.
    pub fn is_reached(&self)
        ensures { IsReached self.now.line }
    {
        self.line.is_reached();
    }

    /// Returns how many tokens of each mode are held.
    pub fn bag(&self) -> Bag
        ensures bag { result ≡ bag_of_tokens self.now.tokens_out }
        ensures legal { AreCompatible self.now.readers result }
        ensures small { tokens result < 2 ^ 32 }
    {
        self.arbiter.bag()
    }

    /// Returns how many tokens may be shared or upgradable.
    pub fn readers(&self) -> u64
        ensures { result ≡ self.now.readers }
    {
        self.arbiter.readers()
    }

    /// Returns whether an upgrade waits.
    pub fn upgrade_waits(&self) -> bool
        ensures { result ≡ self.now.upgrade_waits }
    {
        self.upgrade_waits
    }

    /// Returns the tickets that wait.
    pub fn line(&self) -> &Line
        ensures { result.now ≡ self.now.line }
    {
        &self.line
    }

    /// Acquires a token of the mode without a ticket, if no ticket and no upgrade waits and the mode is admitted.
    pub fn pass(&mut self, mode: Mode) -> Option<FairToken<A::Token>>
        ensures admitted { is_some result ≡ may_pass self.old mode }
        ensures added { IfSome result (λ held. Adds self.old.tokens_out self.new.tokens_out held.token mode) }
        ensures mode { IfSome result (λ held. held.mode ≡ mode) }
        ensures passed { IfSome result (λ _. Makes self.old.line Pass self.new.line) }
        ensures step { IfSome result (λ _. MakesFairStep self.old (fair.Pass mode) self.new) }
        ensures refused { IfNone result (self.new ≡ self.old) }
        ensures upgrade_kept { self.new.upgrade_waits ≡ self.old.upgrade_waits }
        ensures limit_kept { self.new.readers ≡ self.old.readers }
    {
        if self.upgrade_waits || !self.line.is_empty() {
            return None;
        }
        let token = self.arbiter.admit(mode)?;
        Some(FairToken { token, mode })
    }

    /// Joins the line. Returns `None` if all 2^64 - 1 tickets were issued.
    pub fn arrive(&mut self) -> Option<Ticket>
        ensures arrives { is_some result ≡ nat_lt self.old.line.issued (2 ^ 64 - 1) }
        ensures ticket { IfSome result (λ ticket. (ticket ≡ self.old.line.issued) × Makes self.old.line Arrive self.new.line) }
        ensures none { IfNone result (self.new ≡ self.old) }
        ensures kept { KeepsTokens self.old self.new }
        ensures step { IfSome result (λ _. MakesFairStep self.old fair.Arrive self.new) }
    {
        self.line.arrive()
    }

    /// Joins the line with a ticket that may leave. Also returns `None` if the ticket would be `TIMED_SPAN` behind the first.
    pub fn arrive_timed(&mut self) -> Option<Ticket>
        ensures arrives { is_some result ≡ (nat_lt (span self.old.line) TIMED_SPAN && nat_lt self.old.line.issued (2 ^ 64 - 1)) }
        ensures ticket { IfSome result (λ ticket. (ticket ≡ self.old.line.issued) × Makes self.old.line Arrive self.new.line) }
        ensures none { IfNone result (self.new ≡ self.old) }
        ensures kept { KeepsTokens self.old self.new }
        ensures step { IfSome result (λ _. MakesFairStep self.old fair.Arrive self.new) }
    {
        self.line.arrive_timed()
    }

    /// Acquires a token of the mode for a ticket, if it is the first, no upgrade waits and the mode is admitted. The ticket ends,
    /// or is returned unchanged. Also returns the owed wake-up.
    pub fn enter(
        &mut self,
        ticket: Ticket,
        mode: Mode,
    ) -> Result<(FairToken<A::Token>, FairWake), Ticket>
        ensures admitted { is_ok result ≡ may_enter self.old ticket mode }
        ensures added { IfOk result (λ entered. Adds self.old.tokens_out self.new.tokens_out entered.0.token mode) }
        ensures mode { IfOk result (λ entered. entered.0.mode ≡ mode) }
        ensures earliest { IfOk result (λ _. IsEarliest self.old.line ticket) }
        ensures entered { IfOk result (λ _. Makes self.old.line (Enter ticket) self.new.line) }
        ensures step { IfOk result (λ _. MakesFairStep self.old (fair.Enter ticket mode) self.new) }
        ensures woken { IfOk result (λ entered. WakesAfterLineStep self.new entered.1) }
        ensures refused { IfErr result (λ same. (same ≡ ticket) × (self.new ≡ self.old)) }
        ensures upgrade_kept { self.new.upgrade_waits ≡ self.old.upgrade_waits }
        ensures limit_kept { self.new.readers ≡ self.old.readers }
    {
        if self.upgrade_waits || !self.line.is_first(&ticket) {
            return Err(ticket);
        }
        match self.arbiter.admit(mode) {
            Some(token) => {
                self.line.enter(ticket);
                Ok((FairToken { token, mode }, FairWake::after_line_step(self)))
            }
            None => Err(ticket),
        }
    }

    /// Removes a ticket that waits less than `TIMED_SPAN` behind the first, which ends it, or returns it unchanged. Also returns
    /// the owed wake-up.
    pub fn leave(&mut self, ticket: Ticket) -> Result<FairWake, Ticket>
        ensures may { is_ok result ≡ may_leave TIMED_SPAN self.old.line ticket }
        ensures gone { IfOk result (λ _. Makes self.old.line (Leave ticket) self.new.line) }
        ensures step { IfOk result (λ _. MakesFairStep self.old (fair.Leave ticket) self.new) }
        ensures woken { IfOk result (λ woken. WakesAfterLineStep self.new woken) }
        ensures refused { IfErr result (λ same. (same ≡ ticket) × (self.new ≡ self.old)) }
        ensures kept { KeepsTokens self.old self.new }
    {
        self.line.leave(ticket)?;
        Ok(FairWake::after_line_step(self))
    }

    /// Releases a token, and returns the owed wake-up. A token that is not held in its mode is ignored.
    pub fn give_back(&mut self, held: FairToken<A::Token>) -> FairWake
        ensures removed { IsOutAs self.old.tokens_out held.token held.mode
            → Removes self.old.tokens_out self.new.tokens_out held.token }
        ensures ignored { (IsOutAs self.old.tokens_out held.token held.mode → ⊥) → self.new.tokens_out ≡ self.old.tokens_out }
        ensures woken { WakesAfterTokenStep self.old self.new result }
        ensures kept { KeepsLine self.old self.new }
        ensures step { MakesFairStep self.old fair.Keep self.new }
    {
        let before = self.bag();
        let FairToken { token, mode } = held;
        self.arbiter.give_back(token, mode);
        FairWake::after_token_step(self, before)
    }

    /// Downgrades a token, whatever tickets wait. Also returns the owed wake-up. A token that is not held in its mode only
    /// gets the new mode.
    pub fn downgrade(
        &mut self,
        held: FairToken<A::Token>,
        to: Mode,
    ) -> (FairToken<A::Token>, FairWake)
        requires down { IsTrue (is_downgrade held.mode to) }
        ensures mode { result.0.mode ≡ to }
        ensures replaced { IsOutAs self.old.tokens_out held.token held.mode
            → Replaces self.old.tokens_out self.new.tokens_out held.token result.0.token to }
        ensures ignored { (IsOutAs self.old.tokens_out held.token held.mode → ⊥)
            → (result.0.token ≡ held.token) × (self.new.tokens_out ≡ self.old.tokens_out) }
        ensures woken { WakesAfterTokenStep self.old self.new result.1 }
        ensures kept { KeepsLine self.old self.new }
        ensures step { MakesFairStep self.old fair.Keep self.new }
    {
        let before = self.bag();
        let FairToken { token, mode } = held;
        let token = match self.arbiter.change(token, mode, to) {
            Ok(next) => next,
            Err(same) => same.token,
        };
        let woken = FairWake::after_token_step(self, before);
        (FairToken { token, mode: to }, woken)
    }

    /// Makes an upgradable token exclusive, whatever tickets wait, or returns it unchanged if another token is held. A token that
    /// is not held in its mode only gets the new mode.
    pub fn try_upgrade(
        &mut self,
        held: FairToken<A::Token>,
    ) -> Result<FairToken<A::Token>, FairToken<A::Token>>
        requires upgradable { held.mode ≡ Upgradable }
        ensures mode { IfOk result (λ next. next.mode ≡ Exclusive) }
        ensures admitted { IsOutAs self.old.tokens_out held.token Upgradable
            → is_ok result ≡ may_become (bag_of_tokens self.old.tokens_out) Exclusive }
        ensures replaced { IsOutAs self.old.tokens_out held.token Upgradable
            → IfOk result (λ next. Replaces self.old.tokens_out self.new.tokens_out held.token next.token Exclusive) }
        ensures ignored { (IsOutAs self.old.tokens_out held.token Upgradable → ⊥)
            → IfOk result (λ next. (next.token ≡ held.token) × (self.new.tokens_out ≡ self.old.tokens_out)) }
        ensures refused { IfErr result (λ same. (same ≡ held) × (self.new ≡ self.old)) }
        ensures kept { KeepsLine self.old self.new }
        ensures step { MakesFairStep self.old fair.Keep self.new }
    {
        let FairToken { token, mode } = held;
        match upgraded(self.arbiter.change(token, mode, Mode::Exclusive)) {
            Ok(token) => Ok(FairToken {
                token,
                mode: Mode::Exclusive,
            }),
            Err(token) => Err(FairToken { token, mode }),
        }
    }

    /// `try_upgrade` of a pending upgrade, whose announcement ends if it succeeds.
    pub fn upgrade(
        &mut self,
        pending: PendingUpgrade<A::Token>,
    ) -> Result<FairToken<A::Token>, PendingUpgrade<A::Token>>
        requires upgradable { pending.token.mode ≡ Upgradable }
        ensures mode { IfOk result (λ next. next.mode ≡ Exclusive) }
        ensures admitted { IsOutAs self.old.tokens_out pending.token.token Upgradable
            → is_ok result ≡ may_become (bag_of_tokens self.old.tokens_out) Exclusive }
        ensures replaced { IsOutAs self.old.tokens_out pending.token.token Upgradable
            → IfOk result (λ next. Replaces self.old.tokens_out self.new.tokens_out pending.token.token next.token Exclusive) }
        ensures withdrawn { IfOk result (λ _. self.new.upgrade_waits ≡ (self.old.upgrade_waits && not pending.announced)) }
        ensures step { IfOk result (λ _. MakesFairStep self.old (end_of pending.announced) self.new) }
        ensures refused { IfErr result (λ same. (same ≡ pending) × (self.new ≡ self.old)) }
        ensures limit_kept { self.new.readers ≡ self.old.readers }
        ensures line_kept { self.new.line ≡ self.old.line }
    {
        let PendingUpgrade { token, announced } = pending;
        match self.try_upgrade(token) {
            Ok(next) => {
                self.end_announcement(announced);
                Ok(next)
            }
            Err(token) => Err(PendingUpgrade { token, announced }),
        }
    }

    /// Announces a pending upgrade, if none is announced: until it ends, no acquisition is admitted. Returns whether it did.
    pub fn announce(&mut self, pending: &mut PendingUpgrade<A::Token>) -> bool
        ensures announced { result ≡ not self.old.upgrade_waits }
        ensures waits { self.new ≡ record self.old { upgrade_waits = true } }
        ensures pending { pending.new ≡ record pending.old { announced = pending.old.announced || result } }
        ensures step { MakesFairStep self.old (announcement result) self.new }
    {
        if self.upgrade_waits {
            return false;
        }
        self.upgrade_waits = true;
        pending.announced = true;
        true
    }

    /// Ends a pending upgrade and its announcement. Returns its token and the owed wake-up.
    pub fn withdraw(&mut self, pending: PendingUpgrade<A::Token>) -> (FairToken<A::Token>, FairWake)
        ensures back { result.0 ≡ pending.token }
        ensures withdrawn { self.new ≡ record self.old { upgrade_waits = self.old.upgrade_waits && not pending.announced } }
        ensures step { MakesFairStep self.old (end_of pending.announced) self.new }
        ensures woken { WakesAfterLineStep self.new result.1 }
    {
        let PendingUpgrade { token, announced } = pending;
        self.end_announcement(announced);
        (token, FairWake::after_line_step(self))
    }

    /// Ends the announcement of an upgrade, if it was announced.
    fn end_announcement(&mut self, announced: bool)
        ensures { self.new ≡ record self.old { upgrade_waits = self.old.upgrade_waits && not announced } }
    {
        if announced {
            self.upgrade_waits = false;
        }
    }
}
