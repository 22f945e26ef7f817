//! A pair of numbers in a pair.
use crate::project::{Item0, NthItem};
use lock_parts::Then;

pub type Nested = ((u64, u64), u64);

/// The item of the inner pair at this index, if it has one.
pub fn inner_item(index: usize) -> Then<Item0, NthItem> {
    Then {
        first: Item0,
        second: NthItem(index),
    }
}
