//! Slots under rising numbers. A slot is found by its number in a few steps, however many slots there are.
#![tactic(auto)]

mod hints;
mod numbered_slots;
mod row;

pub use numbered_slots::{Bookmark, NumberedSlots};
