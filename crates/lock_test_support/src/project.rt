//! Projections of pairs.
mod items;
mod nested;
mod nth_item;

pub use items::{Item0, Item1};
pub use nested::{Nested, inner_item};
pub use nth_item::NthItem;
