//! Scripts of calls, made on the shared locks over any raw lock and compared with the `Desk`.
#![tactic(auto)]

mod comparison;
mod driven;
mod lines;
mod manner;
mod mutex;
mod operation;
mod parts;
mod plain_raw;
mod reentrant;
mod report;
mod report_text;
mod rw_guard;
mod rwlock;
mod script_call;
mod script_guards;
mod script_run;

pub use driven::{After, Driven, ScriptGuard};
pub use lines::Lines;
pub use lock_recorder::{CallLog, Deadline, RawCall, Recorder};
pub use lock_script::{DeskScript, parse};
pub use manner::{Manner, ParkBy};
pub use mutex::run_mutex;
pub use operation::{ask, change};
pub use parts::{RunParts, run_parts};
pub use plain_raw::PlainRaw;
pub use reentrant::run_reentrant;
pub use report::{Difference, Report, ReportEntry};
pub use report_text::write_report;
pub use rw_guard::{AnyGuard, RwDriven, RwGuard};
pub use rwlock::run_rwlock;
pub use script_run::run_on;
