//! Projections: lenses to a part of a value.
#![tactic(auto)]

mod field;
mod laws;
mod lent;
mod missed;
mod projection;
mod then;
mod view;

pub use field::{At, Field};
pub use laws::{
    mapping_twice_is_then, missed_write_changes_nothing, then_is_associative, then_is_lawful,
    then_misses_in_order, write_keeps_part,
};
pub use missed::Missed;
pub use projection::{Project, TryProject};
pub use then::Then;
pub use view::{TryView, View};
