//! The lines of plans: from bytes to lines of words, and to what a line says.
//!
//! [`scan_plan`] scans a text and the files that it includes into lines of words, and writes out the lines that are short for
//! several. [`read`] reads what a line says, and [`misread`] explains a line that says nothing. A [`Line`] keeps its file, its number
//! and the call for which it is written out. A [`LineFault`] shows as the reason that a program prints.
#![tactic(auto)]

mod channels;
mod counter;
mod fault;
mod files;
mod forms;
mod functions;
mod gates;
mod includes;
mod indexed;
mod line;
mod line_fault;
mod line_list;
mod misreading;
mod origin;
mod origins;
mod picks;
mod reading;
mod repeated;
mod replacements;
mod rows;
mod said;
mod scanning;
mod sources;
mod spot;
mod spread;
mod templates;
mod uncalled;
mod words;
mod written;

pub use counter::{Counter, CounterKind};
pub use fault::{BadLine, TextFault};
pub use files::{FileFault, Files};
pub use forms::{Form, Role};
pub use line::{Line, Text, Written};
pub use line_fault::{LineFault, NameKind, Refusal, write_callers};
pub use misreading::{meant, misread};
pub use origin::{LineAt, Origin};
pub use origins::Origins;
pub use reading::read;
pub use said::{Condition, Join, LockLine, Look, Looks, Parties, Receipt, Said, WaitLine};
pub use scanning::{Scanned, scan};
pub use sources::Sources;
pub use spot::Spot;
pub use words::{NameSet, Words};
pub use written::scan_plan;
