//! A lock of one word: the rule by which no wake-up is lost, and the machine of its calls.
//!
//! The word is the packed word of `lock_word` with two more bits. A thread sets the bit of sleepers before it sleeps on the
//! word, and a release that finds it set wakes sleepers. A reader that slept enough sets the turn of readers. Then no writer
//! acquires but the one that has set the bar, until a reader acquires. After the exchange that releases, the call uses only the address of the
//! word, so another thread may free the word at once.
#![tactic(auto)]

mod action;
mod call;
mod laws;
mod sleep_view;
mod stage;
mod storing;

pub use action::{Action, Sleeper};
pub use call::{SLEEPERS, TURN, WordCall, alone_word, removes_reader};
pub use laws::{
    answers_match_holds, barred_calls_are_next, every_run_is_served, first_steps,
    readers_get_a_turn, refusals_have_causes, releases_touch_no_more, storing_keeps_words,
};
pub use sleep_view::{Debt, SleepState, SleepView, WordLimits};
pub use stage::Stage;
pub use storing::{from_stored, stored_amount, to_stored};
