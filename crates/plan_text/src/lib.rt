//! The front of plans: what a text says, as locks, flags, condition variables, and a program of places for each party.
//!
//! [`read_plan`] reads the lines of a text (`plan_lines`) into a tree, and elaborates the tree of each party into places. Each place
//! keeps its file and the number of its line. The meaning of a text is tested against a model, and not proved: [`Core`] is what is
//! searched, and can be printed.
#![tactic(auto)]

mod alike;
mod bad_lines;
mod begun;
mod core_act;
mod core_plan;
mod core_reading;
mod core_text;
mod names;
mod open_block;
mod places;
mod programs;
mod tree;

pub use core_plan::{Core, NamedPlan, read_plan};
pub use core_reading::read_core;
pub use core_text::write_look;
pub use names::Names;
pub use programs::Programs;
