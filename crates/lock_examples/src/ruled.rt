//! Programs whose threads share a value, with proved results: a counter, a bank, a queue, a pool and
//! a semaphore.
mod bank;
mod counter;
mod lending;
mod queue;
mod tickets;
mod workers;

pub use bank::{Accounts, Direction, Sum, shuffle};
pub use counter::{Added, Counter, count, next_number, try_add};
pub use lending::{
    Borrower, Lending, One, Weighed, Weight, borrow, give_back, join_borrowers, lend_in_turns,
};
pub use queue::{InRing, relay};
pub use tickets::{TicketBox, Tickets, put_ticket, take_ticket};
pub use workers::{permits_after, work_in_turns};
