//! A reader-writer lock whose whole state is one atomic word. Each party has a seat at the word, and every atomic step
//! of every party keeps the rule of the word.

mod attempt;
mod laws;
mod lock;
mod party;
mod plays;
mod rule;

pub use attempt::Attempt;
pub use laws::every_state_keeps_rule;
pub use lock::SeatedLock;
pub use party::Party;
pub use rule::{SeatView, WordRule};
