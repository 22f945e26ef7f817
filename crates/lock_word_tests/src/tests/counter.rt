//! A counter behind a mutex under a rule.
use lock_ruled::{Measure, RuledMutex, Tally, User};

/// The measure of a counter: its value, which is what all users added.
pub struct CountMeasure;

impl Measure<u64> for CountMeasure {
    ghost measure = { λ count. count };
}

/// A counter.
pub type Counter = RuledMutex<u64, u64, Tally<CountMeasure>>;

/// A user of a counter.
pub type Adder = User<u64, u64>;
