//! Guesses of the row of a number.
ghost use Rattle.std.specs.Prelude.{◌≤◌, ◌^◌};

use std::alloc::{AllocError, Global};

/// A guess of the row of each number.
///
/// Without gaps, a number is as far from the first number as its row is from the first row. Where that guess was wrong,
/// a table notes the row. Numbers that differ by a multiple of the table's length share a place in it. So a guess may
/// be wrong, and the caller checks it.
#[derive(Drop)]
pub(crate) struct Hints {
    first: u64,
    // Empty until a row is noted, and then `len` long. Most instances never write to it.
    rows: Vec<u32>,
    len: usize,
}

impl Hints {
    /// Makes guesses for at least `numbers` numbers, from 1.
    pub(crate) fn new(alloc: Global, numbers: usize) -> Result<Hints, AllocError>
        requires { numbers ≤ 2 ^ 63 }
    {
        let len = numbers.next_power_of_two();
        Ok(Hints {
            first: 1,
            rows: Vec::with_capacity(alloc, len)?,
            len,
        })
    }

    pub(crate) fn guess(&self, number: u64) -> usize {
        match self.rows.get(self.place(number)) {
            Some(row) if *row != 0 => *row as usize,
            _ => number.wrapping_sub(self.first) as usize,
        }
    }

    /// Notes that the number is in this row.
    pub(crate) fn note(&mut self, number: u64, row: usize) {
        if row == 0 {
            self.first = number;
        }
        if self.guess(number) == row {
            return;
        }
        // There is room for it, so it cannot fail.
        let _ = self.rows.resize(self.len, 0);
        let place = self.place(number);
        if let Some(noted) = self.rows.get_mut(place) {
            *noted = u32::try_from(row).unwrap_or(u32::MAX);
        }
    }

    fn place(&self, number: u64) -> usize {
        (number & (self.len as u64).wrapping_sub(1)) as usize
    }
}
