//! Answers without a search: an order of the locks that all programs keep, or ranks of their waits.
//!
//! [`find_order`] looks for both and tests what it finds, as long as its budget lasts. Then no run of the programs' parties
//! leads into a stop or a circle, by the laws of `lock_plan_laws`. Where it finds neither, it says what is in the way.
#![tactic(auto)]

mod circle;
mod coverage;
mod held_waits;
mod lenient;
mod lock_order;
mod lock_ranks;
mod lookups;
mod obstacles;
mod order;
mod order_fault;
mod setting;
mod wait_place;
mod wait_ranks;

pub use lock_order::{HeldWait, LockOrder, Obstacle};
pub use order::find_order;
pub use order_fault::OrderFault;
