//! Checks of recorded calls, one after another.
ghost use Rattle.std.specs.Prelude.{◌≡◌, None, IsSome, MatchBool, MatchResult};

use lock_modes::Mode;
use lock_recorder::{CallLog, RawCall};
use std::test::Fail;

/// Compares the calls that a raw lock recorded since the last check with the wanted ones, and keeps the first difference.
#[derive(Drop)]
pub struct CallWatch {
    log: CallLog,
    looks: u64,
    wrong: Option<(u64, Option<Vec<RawCall>>)>,
}

impl CallWatch {
    pub fn new(log: CallLog) -> CallWatch {
        CallWatch {
            log,
            looks: 0,
            wrong: None,
        }
    }

    /// Checks that exactly these calls were recorded since the last check, and that no thread is recording one.
    pub fn saw(&mut self, wanted: &[RawCall]) {
        self.looks = self.looks.wrapping_add(1);
        let came = self.log.take();
        if self.wrong.is_none() && came.as_deref() != Some(wanted) {
            self.wrong = Some((self.looks, came));
        }
    }

    /// Returns whether each check found the wanted calls.
    pub fn is_right(&self) -> bool
        ensures { MatchBool result (self.now.wrong ≡ None) (IsSome self.now.wrong) }
    {
        self.wrong.is_none()
    }

    /// Fails with the number of the first check that found other calls, and with those calls.
    pub fn verdict(self) -> Result<(), Fail>
        ensures { MatchResult result (λ _. self.wrong ≡ None) (λ _. IsSome self.wrong) }
    {
        let CallWatch {
            log: _,
            looks: _,
            wrong,
        } = self;
        match wrong {
            Some(wrong) => Err(Fail::from(wrong)),
            None => Ok(()),
        }
    }

    /// Checks that the guard was acquired in the mode since the last check, and that its drop releases that mode.
    pub fn saw_hold<G: Drop>(&mut self, held: G, mode: Mode) {
        self.saw(&[RawCall::Lock(mode)]);
        drop(held);
        self.saw(&[RawCall::Unlock(mode)]);
    }
}
