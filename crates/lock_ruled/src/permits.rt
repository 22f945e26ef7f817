//! What the ledger of a semaphore counts.
use crate::ledger::Measure;

/// The measure of a semaphore's value: the number of free permits.
pub struct Permits;

impl Measure<u64> for Permits {
    ghost measure = { λ free. free };
}
