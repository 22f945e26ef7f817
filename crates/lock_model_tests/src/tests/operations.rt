//! Operations on a number.
ghost use Rattle.std.specs.Prelude.{◌+◌, ◌-◌, ◌^◌, nat_le};

use lock_machine::Op;
use std::cell::Cell;

/// Adds to a number, if the sum fits.
#[derive(Clone, Copy)]
pub struct Add(pub u64);

impl Op<u64> for Add {
    type Answer = u64;

    ghost meaning = { λ add. record {
      fits = λ value. nat_le value (2 ^ 64 - 1 - add.0);
      read_answer = λ value. value;
      change_answer = λ value. value + add.0;
      after = λ value. value + add.0;
    } };

    fn fits(&self, value: &u64) -> bool {
        *value <= u64::MAX - self.0
    }

    fn ask(&self, value: &u64) -> u64 {
        *value
    }

    fn apply(&self, value: &mut u64) -> u64 {
        *value += self.0;
        *value
    }
}

/// An operation that counts how often it was applied.
#[derive(Clone, Copy)]
pub struct CountedOp<'a, O> {
    pub op: O,
    pub applied: &'a Cell<u64>,
}

impl<'a, T, O: Op<T>> Op<T> for CountedOp<'a, O> {
    type Answer = O::Answer;

    ghost meaning = { λ counted. O.meaning counted.op };

    fn fits(&self, value: &T) -> bool {
        self.op.fits(value)
    }

    fn ask(&self, value: &T) -> O::Answer {
        self.op.ask(value)
    }

    fn apply(&self, value: &mut T) -> O::Answer {
        self.applied.set(self.applied.get().saturating_add(1));
        self.op.apply(value)
    }
}
