//! A raw lock that records the calls made on it, and its record: for `lock_conform` and for tests.
#![tactic(auto)]

mod call_log;
mod deadline;
mod raw_call;
mod recorder;
mod recorder_rwlock;

pub use call_log::CallLog;
pub use deadline::Deadline;
pub use raw_call::RawCall;
pub use recorder::Recorder;
