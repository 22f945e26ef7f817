//! A call on a condition variable as a state machine: each answer to a step gives the next step to make.
//!
//! A condition variable has one word of 64 bits: the count of its waits, how many of them are not claimed, and its epoch. The
//! machine makes no step itself. The owner of the word makes the steps in a loop: the driver.
#![tactic(auto)]

mod act;
mod action;
mod call;
mod laws;
mod stage;
mod word;

pub use act::{Begun, EventAct};
pub use action::EventAction;
pub use call::EventCall;
pub use laws::{every_wait_is_reached, waits_hand_over_the_mutex};
pub use stage::EventStage;
pub use word::{EventWord, LAST_EPOCH, MOST_WAITS, ONE_WAIT};
