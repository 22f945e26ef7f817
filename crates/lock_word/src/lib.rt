//! The packed word: the modes that are held and the bar, in one number, with the atomic steps of parties on it, and a
//! lock of threads on one word (`seated`).
#![tactic(auto)]

mod down;
mod laws;
mod occupancy;
mod party;
pub mod seated;
mod step;
mod want;
mod word;

pub use down::Down;
pub use laws::{
    bar_encodings_agree, encoding_is_injective, every_interleaving, exchanges_refine_steps,
    exchanges_unblock_nobody, subtractions_refine_steps, unblocks_misses_nobody,
};
pub use occupancy::{Occupancy, unblocks};
pub use party::WorldParty;
pub use step::{AtomicStep, Outcome};
pub use want::ExWant;
pub use word::{BAR, EXCLUSIVE, UPGRADABLE, has_bar, has_exclusive, has_tokens, with_bar};
