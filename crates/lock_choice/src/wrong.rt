//! Raw locks with a mistake, which a run must find.
mod mistake;
mod wrong_raw;
mod wrong_rwlock;

pub use mistake::Mistake;
pub use wrong_raw::WrongRaw;
