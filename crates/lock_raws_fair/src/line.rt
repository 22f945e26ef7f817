//! The line: numbered tickets that wait, in the order of arrival. A ticket enters only if it is the first that waits.
//!
//! A line is two numbers, and one bit for each of 64 tickets. It allocates nothing.
ghost use Rattle.std.specs.Prelude.{◌≡◌, ◌≢◌, ◌-◌, ◌<◌, ◌≤◌, ◌==◌, ℕ};
ghost use Rattle.std.specs.Int.{bit_at};
ghost use Rattle.lock_raws_fair.specs.Tickets.{staying};

mod step;
mod ticket;

use std::marker::Model;
pub use step::LineStep;
pub use ticket::Ticket;

/// How many tickets from the first on may leave.
pub const TIMED_SPAN: u64 = 64;

/// The tickets that wait, the earliest first. Any number of tickets may wait.
#[derive(Drop)]
pub struct Line {
    /// The first ticket that waits, or else the next ticket.
    head: u64,
    /// The next ticket.
    next: u64,
    /// The tickets that left: bit `i` is 1 if `head + i` left.
    left: u64,
}

impl Model for Line {
    ghost use Rattle.std.specs.Prelude.{◌≡◌, ◌-◌, ℕ, ◌≤◌};
    ghost use Rattle.std.specs.Int.{bit_at};
    ghost use Rattle.lock_raws_fair.specs.Tickets as spec;
    ghost use Rattle.lock_raws_fair.specs.LineLaws.{IsReached};

    ghost Value = { spec.Line };

    ghost view = { λ line. record {
      waiting = spec.staying (line.next - line.head) line.head line.left;
      issued = line.next;
    } };

    ghost invariant = { λ line. (line.head ≤ line.next)
        × ((i : ℕ) → line.next - line.head ≤ i → bit_at line.left i ≡ 0)
        × (bit_at line.left 0 ≡ 0)
        × IsReached (record { waiting = spec.staying (line.next - line.head) line.head line.left; issued = line.next }) };
}

impl Line {
    ghost use Rattle.std.specs.Prelude.{◌≡◌, ◌-◌, ◌^◌, ◌&&◌, not, IfSome, IfNone, IfOk, IfErr, is_some, is_ok, nat_lt, IsTrue};
    ghost use Rattle.lock_raws_fair.specs.declared.line.step.LineStep.TheVariants.{Arrive, Enter, Leave};
    ghost use Rattle.lock_raws_fair.specs.Tickets.{empty_line, is_empty, is_first, may_leave, span, Makes};
    ghost use Rattle.lock_raws_fair.specs.LineLaws.{IsReached, IsEarliest};

    /// Makes an empty line.
    pub fn new() -> Line
        ensures { result ≡ empty_line }
    {
        Line {
            head: 0,
            next: 0,
            left: 0,
        }
    }

    /// Proves that permitted steps lead from the empty line to this one. It holds of every `Line`, whatever calls made it.
    pub fn is_reached(&self)
        ensures { IsReached self.now }
    {
        let _ = &self.head;
    }

    /// Returns whether no ticket waits.
    pub fn is_empty(&self) -> bool
        ensures { result ≡ is_empty self.now }
    {
        self.head == self.next
    }

    /// Returns how many acquisitions have joined the line.
    pub fn issued(&self) -> u64
        ensures { result ≡ self.now.issued }
    {
        self.next
    }

    /// Returns how far the next ticket is behind the first that waits, or 0 if none waits.
    pub fn span(&self) -> u64
        ensures { result ≡ span self.now }
    {
        self.next - self.head
    }

    /// Returns the number of the first ticket that waits.
    pub fn first(&self) -> Option<u64>
        ensures waits { is_some result ≡ not (is_empty self.now) }
        ensures first { IfSome result (λ ticket. IsTrue (is_first self.now ticket)) }
    {
        if self.is_empty() {
            None
        } else {
            Some(self.head)
        }
    }

    /// Returns whether the ticket is the first that waits.
    pub fn is_first(&self, ticket: &Ticket) -> bool
        ensures { result ≡ is_first self.now ticket.now }
    {
        self.head == ticket.number() && self.head < self.next
    }

    /// Joins the line. Returns `None` if all 2^64 - 1 tickets were issued.
    pub fn arrive(&mut self) -> Option<Ticket>
        ensures arrives { is_some result ≡ nat_lt self.old.issued (2 ^ 64 - 1) }
        ensures ticket { IfSome result (λ ticket. (ticket ≡ self.old.issued) × Makes self.old Arrive self.new) }
        ensures kept { IfNone result (self.new ≡ self.old) }
    {
        let number = self.next;
        if number == u64::MAX {
            return None;
        }
        self.next = number + 1;
        Some(Ticket::numbered(number))
    }

    /// Joins the line with a ticket that may leave. Also returns `None` if the ticket would be `TIMED_SPAN` behind the first.
    pub fn arrive_timed(&mut self) -> Option<Ticket>
        ensures arrives { is_some result ≡ (nat_lt (span self.old) TIMED_SPAN && nat_lt self.old.issued (2 ^ 64 - 1)) }
        ensures ticket { IfSome result (λ ticket. (ticket ≡ self.old.issued) × Makes self.old Arrive self.new) }
        ensures kept { IfNone result (self.new ≡ self.old) }
    {
        if self.span() < TIMED_SPAN {
            self.arrive()
        } else {
            None
        }
    }

    /// Admits the first ticket, which ends.
    pub fn enter(&mut self, ticket: Ticket)
        requires first { IsTrue (is_first self.old ticket) }
        ensures earliest { IsEarliest self.old ticket }
        ensures entered { Makes self.old (Enter ticket) self.new }
    {
        ticket.end();
        (self.head, self.left) = skip_left(self.head + 1, self.next, self.left / 2);
    }

    /// Removes a ticket that waits less than `TIMED_SPAN` behind the first, which ends it, or returns the ticket unchanged.
    pub fn leave(&mut self, ticket: Ticket) -> Result<(), Ticket>
        ensures may { is_ok result ≡ may_leave TIMED_SPAN self.old ticket }
        ensures gone { IfOk result (λ _. Makes self.old (Leave ticket) self.new) }
        ensures kept { IfErr result (λ same. (same ≡ ticket) × (self.new ≡ self.old)) }
    {
        let number = ticket.number();
        if number < self.head || self.next <= number {
            return Err(ticket);
        }
        let place = number - self.head;
        if TIMED_SPAN <= place || has_left(self.left, place) {
            return Err(ticket);
        }
        ticket.end();
        (self.head, self.left) = skip_left(self.head, self.next, mark(self.left, place));
        Ok(())
    }
}

/// Returns whether the bit of the place is set.
fn has_left(left: u64, place: u64) -> bool
    requires { place < 64 }
    ensures { result ≡ (bit_at left place == 1) }
{
    (left >> place) & 1 == 1
}

/// Sets the bit of the place.
fn mark(left: u64, place: u64) -> u64
    requires { place < 64 }
    ensures marked { bit_at result place ≡ 1 }
    ensures others { (i : ℕ) → i ≢ place → bit_at result i ≡ bit_at left i }
{
    left | 1 << place
}

/// Skips the tickets that left before the first that waits.
fn skip_left(head: u64, next: u64, left: u64) -> (u64, u64)
    requires within { head ≤ next }
    requires none_behind { (i : ℕ) → next - head ≤ i → bit_at left i ≡ 0 }
    ensures within { result.0 ≤ next }
    ensures none_behind { (i : ℕ) → next - result.0 ≤ i → bit_at result.1 i ≡ 0 }
    ensures stays { bit_at result.1 0 ≡ 0 }
    ensures same { staying (next - result.0) result.0 result.1 ≡ staying (next - head) head left }
{
    let mut first = head;
    let mut bits = left;
    while bits % 2 == 1 {
        first += 1;
        bits /= 2;
    }
    (first, bits)
}
