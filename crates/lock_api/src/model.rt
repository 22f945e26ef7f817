//! Sequential and stepwise models of the locks: `Desk` and its machine, raw states, the `World` of a packed word, and a
//! call of a `WordLock` between two of its steps.

pub use lock_desk::Desk;
pub use lock_machine::{Call, Form, Op, Reply, Want, Way};
pub use lock_modes::{Bag, Hold, Kind, LockStep, Mode, ModeStep, ObservableState, RawState};
pub use lock_mutex::{LoopEnd, Script, Waits, run_loop};
pub use lock_one::{Action, Debt, SleepState, SleepView, Sleeper, Stage, WordCall, WordLimits};
pub use lock_states::table::{Place, Places, TableToken, TokenTable};
pub use lock_states::word::{PackedToken, PackedWord};
pub use lock_states::world::World;
pub use lock_word::{AtomicStep, Outcome, WorldParty};
