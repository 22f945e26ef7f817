//! Scripts of calls: parsing, running, and writing the answers.
#![tactic(auto)]

mod answer;
mod arguments;
mod call;
mod choice;
mod fault;
mod line;
mod maker;
mod pair;
mod room;
mod script;
mod session;
mod streams;
mod world_call;
mod world_maker;
mod world_session;

pub use answer::{Answer, write_answer};
pub use arguments::which;
pub use choice::Which;
pub use fault::ReplayFault;
pub use line::ScriptLine;
pub use maker::Maker;
pub use pair::{Pair, PairOp};
pub use script::{ParsedScript, parse};
pub use session::{DeskScript, make_desk};
pub use streams::{answers, replay};
