//! Raw locks whose core is a `Monitor`, a std `Mutex` around an arbiter: `TokenRaw`, and `RecordingRaw` with a journal.
#![tactic(auto)]

mod arbiter;
mod monitor;
mod monitor_wake;
mod recording_arbiter;
mod recording_raw;
mod step_journal;
mod token_arbiter;
mod token_raw;

pub use arbiter::{Arbiter, Unchanged, upgraded};
pub use monitor::{ModeToken, Monitor};
pub use monitor_wake::MonitorWake;
pub use recording_arbiter::{DEFAULT_ENTRIES, RecordingArbiter};
pub use recording_raw::{Recorded, RecordingRaw};
pub use token_arbiter::{ArbiterToken, TokenArbiter};
pub use token_raw::{TableArbiter, TokenRaw};
