//! What the words of `lockconform` ask for: a script's run on a shared lock over a raw lock of the library, or over one with a
//! mistake, which the run must find.
#![tactic(auto)]

mod choice;
mod difference_line;
mod over_raw;
mod script_answer;
mod script_run;
mod words;
mod wrong;

pub use choice::{Choice, RawChoice};
pub use script_run::replay;
pub use wrong::{Mistake, WrongRaw};
