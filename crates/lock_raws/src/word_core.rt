//! The raw lock over one word.
ghost use Rattle.std.specs.Prelude.{◌≡◌, ◌↔◌, true, IfOk, IfErr, is_some};
ghost use Rattle.lock_modes.specs.Limits.{IsLimit, IsMakerFault};
ghost use Rattle.lock_word.specs.declared.want.ExWant.TheVariants.{Upgrade};
ghost use Rattle.lock_word.specs.Word.{want_of_mode};
ghost use Rattle.lock_one_word.specs.Calls.{WasTried, HasTimedOut};
ghost use Rattle.lock_one_word.specs.Own.{is_token_of};

use crate::lock_core::LockCore;
use crate::raw_lock::RawLock;
use crate::timing::{NoTime, Timing};
use lock_modes::{Fault, Mode};
use lock_one_word::{WordLock, WordToken};
use std::alloc::Global;
use std::clone::Clone;
use std::marker::PhantomData;
use std::sync::Wait;

/// A raw lock over one atomic word: the readers, a bit for an upgradable hold, one for an exclusive hold, one while a
/// waiting writer keeps others out, and one that says that a waiter may sleep. Pick it where speed counts.
///
/// A try loads the word and exchanges it while the word admits the call, so only a word that refuses it refuses it. A
/// release or a downgrade is one exchange or one subtraction, after which it accesses the word no more. A blocked call
/// spins a few times, and then sleeps on the word. It takes its own tokens only, in the mode that each holds. Its word
/// encodes the tokens that are held, and no sleeper is forgotten: see `every_run_is_served`.
pub type WordRaw<W> = RawLock<WordCore<W, NoTime>>;

/// A `WordLock`, with its permission to block and its measure of time.
#[derive(Drop)]
pub struct WordCore<W: Wait + Clone + Drop, T: Timing<W>> {
    waiter: W,
    lock: WordLock,
    timing: PhantomData<T>,
}

#[tactic(auto, using(lock_one_word::proofs::Own::token_of, lock_one_word::proofs::Own::own_token))]
impl<W: Wait + Clone + Drop, T: Timing<W>> LockCore for WordCore<W, T> {
    type Token = WordToken;

    type Waiter = W;

    type Duration = T::Duration;

    type Instant = T::Instant;

    ghost holds = { λ core mode token. is_token_of core.lock mode token };

    ghost tried = { λ core mode answer. WasTried core.lock (want_of_mode mode) (is_some answer) };

    ghost tried_upgrade = { λ core upgraded. WasTried core.lock Upgrade (is_some upgraded) };

    ghost late = { λ core _. HasTimedOut core.lock };

    ghost late_upgrade = { λ core. HasTimedOut core.lock };

    /// No other call allocates.
    fn new(alloc: Global, waiter: W, readers: u64) -> Result<WordCore<W, T>, Fault>
        ensures limits { (result ≡ Err Fault.BadLimits) ↔ (IsLimit readers → ⊥) }
        ensures in_range { IfOk result (λ core. (core.lock.readers ≡ readers) × IsLimit readers) }
        ensures fault { IfErr result IsMakerFault }
    {
        let lock = WordLock::new(alloc, readers)?;
        Ok(WordCore {
            waiter,
            lock,
            timing: PhantomData,
        })
    }

    fn waiter(&self) -> &W {
        &self.waiter
    }

    fn is_locked(&self) -> bool {
        self.lock.is_locked()
    }

    fn is_locked_exclusive(&self) -> bool {
        self.lock.is_locked_exclusive()
    }

    fn acquire(&self, mode: Mode) -> WordToken {
        self.lock.acquire(&self.waiter, mode)
    }

    fn try_acquire(&self, mode: Mode) -> Option<WordToken> {
        self.lock.try_acquire(mode)
    }

    fn try_acquire_until(&self, mode: Mode, deadline: T::Instant) -> Option<WordToken> {
        T::acquire_until(&self.lock, &self.waiter, mode, deadline)
    }

    fn release(&self, token: WordToken, mode: Mode) {
        self.lock.release(token, mode);
    }

    fn upgrade(&self, token: WordToken) -> WordToken {
        self.lock.upgrade(&self.waiter, token)
    }

    fn try_upgrade(&self, token: WordToken) -> Result<WordToken, WordToken> {
        self.lock.try_upgrade(token)
    }

    fn try_upgrade_until(
        &self,
        token: WordToken,
        deadline: T::Instant,
    ) -> Result<WordToken, WordToken> {
        T::upgrade_until(&self.lock, &self.waiter, token, deadline)
    }

    fn downgrade(&self, token: WordToken, from: Mode, to: Mode) -> WordToken {
        match (from, to) {
            (Mode::Exclusive, Mode::Shared) => self.lock.downgrade(token),
            (Mode::Exclusive, _) => self.lock.downgrade_to_upgradable(token),
            (_, _) => self.lock.downgrade_upgradable(token),
        }
    }

    fn instant_after(&self, timeout: T::Duration) -> Option<T::Instant> {
        T::instant_after(&self.waiter, timeout)
    }
}
