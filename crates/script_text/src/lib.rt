//! Texts of lines and fields: reading a text, its parts, and writing an answer.
//!
//! Scripts of calls and plans share this format. [`read_script`] reads a text to its end, [`Part::first_line`] cuts off a
//! line, [`first_field`] a field of a line, and [`unsigned`] and [`signed`] read a number. [`put`] writes an answer whole.
//! In the specs, `Lines` has the lines and fields of a text, `Numbers` the form of a number, and `Streams` what a reader
//! gave and a writer took.
#![tactic(auto)]

mod fault;
mod field;
mod number;
mod part;
mod reading;
mod writing;

pub use fault::StreamFault;
pub use field::first_field;
pub use number::{signed, unsigned};
pub use part::Part;
pub use reading::{SCRIPT_LIMIT, read_script};
pub use writing::put;
