//! Scripts whose answers no contract states.
mod conform;
