//! The straight path: the first steps of a call where nothing contends.
ghost use Rattle.std.specs.Prelude.{◌≡◌, false, true, [], IsTrue, IfOk, IfErr};
ghost use Rattle.lock_modes.specs.declared.mode.Mode.TheVariants.{Upgradable};
ghost use Rattle.lock_modes.specs.Holds.{no_hold, hold_has, hold_after};
ghost use Rattle.lock_word.specs.declared.want.ExWant.TheVariants.{Upgrade};
ghost use Rattle.lock_word.specs.Word.{step_of_want, step_of_down};
ghost use Rattle.lock_word.specs.Unblocking.{is_awaited};
ghost use Rattle.lock_one.specs.Machine.{removes_reader};
ghost use Rattle.lock_one_word.specs.Calls.{IsTokenOf, one_hold};
ghost use Rattle.lock_one_word.specs.Drives.{looked_at, unacquired_at, unreleased_at, first_end, CanGo, EndsWith, IsTrying, LeadsTo};
ghost use Rattle.lock_one_word.specs.Seats.{IsGoing, to_acquire, to_release, KeepsSeat};

use crate::word_lock::WordLock;
use crate::word_lock::steps::call_seat::CallSeat;
use crate::word_lock::steps::ended::Ended;
use crate::word_lock::steps::looked::Looked;
use crate::word_lock::steps::releasing::Releasing;
use crate::word_lock::steps::token::WordToken;
use crate::word_lock::steps::unacquired::Unacquired;
use crate::word_lock::steps::unreleased::Unreleased;
use lock_one::{SLEEPERS, alone_word, removes_reader};
use lock_word::{Down, ExWant};

impl WordLock {
    /// Begins a call of a new seat, by its load.
    #[inline(always)]
    pub(crate) fn begin(&self, want: ExWant, blocks: bool) -> (Looked, CallSeat)
        requires awaited { IsTrue (is_awaited want) }
        requires has { IsTrue (hold_has no_hold (step_of_want want)) }
        ensures table { (result.1.seat.table_id ≡ self.now.id) × (result.1.seat.me.1 ≡ []) × (result.1.seat.me.0.readers ≡ self.now.readers) × (result.1.seat.me.0.held ≡ no_hold) }
        ensures call { result.0.blocks ≡ blocks }
        ensures going { IsGoing (looked_at result.0) no_hold (to_acquire want) result.1.seat.me.0 }
    {
        let (word, seat) = self.load_new_seat();
        let looked = Looked {
            readers: self.readers,
            want,
            blocks,
            word,
        };
        (looked, seat)
    }

    /// Begins the upgrade of a token, by its load.
    #[inline(always)]
    pub(crate) fn begin_upgrade(&self, token: WordToken, blocks: bool) -> (Looked, CallSeat)
        requires { IsTokenOf self.now Upgradable token }
        ensures table { (result.1.seat.table_id ≡ self.now.id) × (result.1.seat.me.1 ≡ []) × (result.1.seat.me.0.readers ≡ self.now.readers) }
        ensures call { result.0.blocks ≡ blocks }
        ensures going { IsGoing (looked_at result.0) (one_hold Upgradable) (to_acquire Upgrade) result.1.seat.me.0 }
    {
        let mut seat = token.into_seat();
        let word = self.load_word(&mut seat);
        let looked = Looked {
            readers: self.readers,
            want: ExWant::Upgrade,
            blocks,
            word,
        };
        (looked, seat)
    }

    /// Makes the exchange of a call whose first load admits it, where no thread may sleep. Returns the call where that has not
    /// acquired.
    #[inline(always)]
    pub(crate) fn start(&self, seat: &mut CallSeat, looked: Looked) -> Result<Ended, Unacquired>
        requires table { seat.old.seat.table_id ≡ self.now.id }
        requires going { CanGo (looked_at looked) seat.old.seat.me }
        ensures table { KeepsSeat seat.old.seat seat.new.seat }
        ensures acquired { IfOk result (λ end. (end ≡ first_end looked) × EndsWith (looked_at looked) seat.old.seat.me true seat.new.seat.me) }
        ensures goes_on { IfErr result (λ call. LeadsTo (looked_at looked) seat.old.seat.me (unacquired_at call) seat.new.seat.me
            × (looked.blocks ≡ false → IsTrying (unacquired_at call)) × ((unacquired_at call).0.blocks ≡ looked.blocks) × ((unacquired_at call).0.late ≡ false)) }
    {
        let Some(left) = looked.exchanged() else {
            return Err(Unacquired {
                looked,
                found: None,
            });
        };
        let word = looked.word;
        let found = self.exchange_word(seat, word, left);
        if found == word {
            return Ok(looked.end(found));
        }
        Err(Unacquired {
            looked,
            found: Some(found),
        })
    }

    /// Makes the first steps of a release. Returns the call where these have not ended it.
    #[inline(always)]
    pub(crate) fn start_release(&self, seat: &mut CallSeat, down: Down) -> Result<(), Unreleased>
        requires table { seat.old.seat.table_id ≡ self.now.id }
        requires readers { seat.old.seat.me.0.readers ≡ self.now.readers }
        requires has { IsTrue (hold_has seat.old.seat.me.0.held (step_of_down down)) }
        ensures table { KeepsSeat seat.old.seat seat.new.seat }
        ensures ended { IfOk result (λ _. seat.new.seat.me.0.held ≡ hold_after seat.old.seat.me.0.held (step_of_down down)) }
        ensures goes_on { IfErr result (λ call. IsGoing (unreleased_at call) seat.old.seat.me.0.held (to_release down) seat.new.seat.me.0) }
    {
        let releasing = Releasing {
            readers: self.readers,
            down,
        };
        if removes_reader(self.readers, down) {
            self.remove_reader(seat, releasing)
        } else {
            self.release_alone(seat, releasing)
        }
    }

    /// Makes the exchange of a release whose holder is alone.
    #[inline(always)]
    fn release_alone(&self, seat: &mut CallSeat, releasing: Releasing) -> Result<(), Unreleased>
        requires table { seat.old.seat.table_id ≡ self.now.id }
        requires readers { seat.old.seat.me.0.readers ≡ releasing.readers }
        requires has { IsTrue (hold_has seat.old.seat.me.0.held (step_of_down releasing.down)) }
        requires alone { removes_reader releasing.readers releasing.down ≡ false }
        ensures table { KeepsSeat seat.old.seat seat.new.seat }
        ensures ended { IfOk result (λ _. seat.new.seat.me.0.held ≡ hold_after seat.old.seat.me.0.held (step_of_down releasing.down)) }
        ensures goes_on { IfErr result (λ call. IsGoing (unreleased_at call) seat.old.seat.me.0.held (to_release releasing.down) seat.new.seat.me.0) }
    {
        let word = alone_word(releasing.down);
        let found = self.exchange_word(seat, word, word - releasing.down.amount());
        if found == word {
            releasing.end(found);
            return Ok(());
        }
        Err(Unreleased {
            releasing,
            looked: None,
            found,
        })
    }

    /// Makes the load and the subtraction of a release of a reader.
    #[inline(always)]
    fn remove_reader(&self, seat: &mut CallSeat, releasing: Releasing) -> Result<(), Unreleased>
        requires table { seat.old.seat.table_id ≡ self.now.id }
        requires readers { seat.old.seat.me.0.readers ≡ releasing.readers }
        requires has { IsTrue (hold_has seat.old.seat.me.0.held (step_of_down releasing.down)) }
        requires removes { removes_reader releasing.readers releasing.down ≡ true }
        ensures table { KeepsSeat seat.old.seat seat.new.seat }
        ensures ended { IfOk result (λ _. seat.new.seat.me.0.held ≡ hold_after seat.old.seat.me.0.held (step_of_down releasing.down)) }
        ensures goes_on { IfErr result (λ call. IsGoing (unreleased_at call) seat.old.seat.me.0.held (to_release releasing.down) seat.new.seat.me.0) }
    {
        let looked = self.load_word(seat);
        if looked >= SLEEPERS {
            return Err(Unreleased {
                releasing,
                looked: None,
                found: looked,
            });
        }
        let found = self.subtract_from_word(seat, releasing.down);
        if found < SLEEPERS {
            releasing.end_after(looked, found);
            return Ok(());
        }
        Err(Unreleased {
            releasing,
            looked: Some(looked),
            found,
        })
    }
}
