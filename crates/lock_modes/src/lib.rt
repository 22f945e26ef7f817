//! What all crates here speak of: the modes in which a lock is held, with their steps, their bags and their tokens; kinds,
//! parties, faults, limits and levels; and `RawState`, the sequential counterpart of a raw lock.
#![tactic(auto)]

mod bag;
mod fault;
mod hold;
mod kind;
mod levels;
mod limits;
mod lock_step;
mod mode;
mod mode_step;
mod observable_state;
mod party;
mod raw_state;

pub use bag::Bag;
pub use fault::Fault;
pub use hold::Hold;
pub use kind::Kind;
pub use levels::{DEFAULT_LEVELS, Levels};
pub use limits::{DEFAULT_READERS, MAX_LIMIT, is_limit};
pub use lock_step::LockStep;
pub use mode::Mode;
pub use mode_step::ModeStep;
pub use observable_state::ObservableState;
pub use party::PartyId;
pub use raw_state::RawState;
