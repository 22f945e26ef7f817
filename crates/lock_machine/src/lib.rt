//! The machine of guards: its calls, its replies and its operations. Its definition is in `specs/`, and its laws in [`laws`].
#![tactic(auto)]

mod call;
pub mod laws;
mod op;
mod reply;

pub use call::{Call, Form, Want, Way};
pub use op::Op;
pub use reply::Reply;
