//! Laws of plans on machines of guards. Each is the contract of a function with an empty body.
//!
//! [`worlds_are_runs_of_machines`] ties every run under a plan to machines. [`machines_stop_as_explored`] says what the
//! answer of a search means for machines, and [`lines_stop_as_worlds`] what it means for fair locks. [`circles_never_move`]
//! says that the parties of a circle never make a step, and [`never_waiting_parties_go_on`] which parties always have one.
//! [`ordered_plans_never_stop`] needs no search, and speaks of any number of parties: each acquires its locks in one order.
//! [`plans_without_a_circle_never_stop`] needs none either: the parties' waits have ranks.
#![tactic(auto)]

mod bridge;
mod circles;
mod lines;
mod never_waits;
mod ordered;
mod stops;

pub use bridge::worlds_are_runs_of_machines;
pub use circles::circles_never_move;
pub use lines::lines_stop_as_worlds;
pub use never_waits::never_waiting_parties_go_on;
pub use ordered::{
    ordered_plans_never_stop, plans_without_a_circle_never_stop, some_holder_does_not_wait,
};
pub use stops::machines_stop_as_explored;
