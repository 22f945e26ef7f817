//! The answer to the text of a plan: it can deadlock or cannot, in the form that is asked for, or why there is no answer.
//!
//! [`explore_plan`] reads the text, searches the plan or looks for an order of its locks, and writes what it found. The programs
//! around it read words and files.
#![tactic(auto)]

mod answer;
mod bad_text;
mod ending;
mod exploring;
mod hold_bytes;
mod no_answer;
mod options;
mod order_budget;
mod status;
mod verdict;

pub use exploring::{Answer, explore_plan};
pub use no_answer::NoAnswer;
pub use options::{Form, Options};
pub use plan_lines::{FileFault, Files};
pub use status::Status;
pub use verdict::Verdict;
