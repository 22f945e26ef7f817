//! What no contract says of the raw locks.
mod actions;
mod cases;
mod foreign_tokens;
mod held;
mod helpers;
mod makers;
mod markers;
mod meeting;
mod recording;
mod shared;
