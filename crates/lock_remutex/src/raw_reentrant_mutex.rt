ghost use Rattle.std.specs.Prelude.{◌≡◌, ◌↔◌, ◌⊎◌, true, None, Some, Err, IfOk, IfErr, IfSome, IsOkUnless};
ghost use Rattle.lock_modes.specs.Limits.{IsLimit, IsMakerFault};
ghost use Rattle.lock_modes.specs.Party.{id_of};
ghost use Rattle.lock_remutex.specs.LevelSteps.{AnswersLevel, HasGained, HasLost, HasSeveral, HasToken, FoundOwner, IsNewLevel, IsNoOwner, TriedFor, TriedLevel, WasOwned};

use crate::owner_table::{Level, OwnerKey, OwnerTable, TokenRule};
use lock_modes::{DEFAULT_LEVELS, Fault, PartyId, is_limit};
use lock_traits::{RawMutex, RawMutexFair, RawMutexTimed};
use std::alloc::Global;
use std::marker::{Model, PhantomData};
use std::snapshot::Snapshot;
use std::sync::Wait;

/// The owner's token is one of the raw lock that is the key.
pub struct OwnTokens<R> {
    raw: PhantomData<R>,
}

impl<R: RawMutex> TokenRule<Snapshot<R>, R::Guard> for OwnTokens<R> {
    ghost use Rattle.std.specs.Prelude.{◌≡◌, true};

    ghost fits = { λ key token. R.is_own key.value token ≡ true };
}

/// A raw mutex that the owning party may acquire again, up to a limit of levels.
///
/// The owner's token lies in the slot of a table, which makes the lock `Sync` for tokens that are `Send`. A lock that is
/// dropped while owned forgets the token. Contracts see the lock as its raw lock.
#[derive(Drop)]
pub struct RawReentrantMutex<R: RawMutex> {
    raw: R,
    owner: OwnerTable<Snapshot<R>, R::Guard, OwnTokens<R>>,
}

impl<R: RawMutex> Model for RawReentrantMutex<R> {
    ghost use Rattle.std.specs.Prelude.{◌≡◌};

    ghost Value = { R };

    ghost view = { λ lock. lock.raw };

    ghost invariant = { λ lock. lock.owner.key.raw.value ≡ lock.raw };
}

impl<R: RawMutex + Drop> RawReentrantMutex<R>
where
    R::Guard: Send,
{
    /// Makes an unlocked lock of `DEFAULT_LEVELS`.
    pub fn new(alloc: Global, waiter: R::Waiter) -> Result<Self, Fault>
        ensures { IsOkUnless result Fault.OutOfMemory }
    {
        RawReentrantMutex::from_raw(alloc, R::new(alloc, waiter)?)
    }

    /// Makes an unlocked lock of `levels`. It checks the limit before it allocates.
    pub fn with_levels(alloc: Global, waiter: R::Waiter, levels: u64) -> Result<Self, Fault>
        ensures range { (result ≡ Err Fault.BadLimits) ↔ (¬ IsLimit levels) }
        ensures in_range { IfOk result (λ _. IsLimit levels) }
        ensures fault { IfErr result IsMakerFault }
    {
        if !is_limit(levels) {
            return Err(Fault::BadLimits);
        }
        let raw = R::new(alloc, waiter)?;
        RawReentrantMutex::over(alloc, raw, levels)
    }

    /// Makes a lock of `DEFAULT_LEVELS` over a given raw lock. The raw lock is dropped if there is no memory.
    pub fn from_raw(alloc: Global, raw: R) -> Result<Self, Fault>
        ensures fault { IsOkUnless result Fault.OutOfMemory }
        ensures raw { IfOk result (λ lock. lock ≡ raw) }
    {
        RawReentrantMutex::over(alloc, raw, DEFAULT_LEVELS)
    }

    /// Makes a lock without an owner.
    fn over(alloc: Global, raw: R, levels: u64) -> Result<Self, Fault>
        requires { IsLimit levels }
        ensures fault { IsOkUnless result Fault.OutOfMemory }
        ensures raw { IfOk result (λ lock. lock ≡ raw) }
    {
        let key = OwnerKey {
            raw: Snapshot::of(&raw),
            limit: levels,
        };
        let Ok(owner) = OwnerTable::new(alloc, &key) else {
            return Err(Fault::OutOfMemory);
        };
        Ok(RawReentrantMutex { raw, owner })
    }
}

impl<R: RawMutex> RawReentrantMutex<R> {
    /// Consumes the lock, and returns the raw lock, which stays held if a party owns it.
    pub(crate) fn into_raw(self) -> R
        ensures { result ≡ self }
    {
        let RawReentrantMutex { raw, owner: _ } = self;
        raw
    }

    /// Acquires one level for the party, blocking until no other party owns the lock.
    ///
    /// # Errors
    ///
    /// `FullCount` if the party owns the lock at all its levels.
    pub fn lock(&self, party: PartyId) -> Result<(), Fault>
        ensures gained { IfOk result (λ _. HasGained R.is_own self.now (id_of party)) }
        ensures fault { IfErr result (λ fault. fault ≡ Fault.FullCount) }
    {
        match self.acquire(party) {
            Ok(level) => {
                level.keep();
                Ok(())
            }
            Err(fault) => Err(fault),
        }
    }

    /// Acquires one level for the party without blocking, or answers false.
    ///
    /// # Errors
    ///
    /// As `lock`.
    #[tactic(auto, using(crate::proofs::Tries::tried_level))]
    pub fn try_lock(&self, party: PartyId) -> Result<bool, Fault>
        ensures tried { IfOk result (TriedLevel (R.tried self.now) R.is_own self.now (id_of party)) }
        ensures fault { IfErr result (λ fault. fault ≡ Fault.FullCount) }
    {
        match self.try_acquire(party) {
            Ok(got) => Ok(kept(got)),
            Err(fault) => Err(fault),
        }
    }

    /// Releases one level of the party, and with the last level the raw lock.
    ///
    /// # Errors
    ///
    /// `Foreign` if the party does not own the lock.
    pub fn unlock(&self, party: PartyId) -> Result<(), Fault>
        ensures lost { IfOk result (λ _. HasLost R.is_own self.now (id_of party)) }
        ensures fault { IfErr result (λ fault. fault ≡ Fault.Foreign) }
    {
        if let Some(token) = self.leave(party)? {
            self.raw.unlock(token);
        }
        Ok(())
    }

    /// Returns whether the raw lock is held. The answer may be stale at once.
    pub fn is_locked(&self) -> bool {
        self.raw.is_locked()
    }

    /// Returns whether the party owns the lock. The answer may be stale at once if other threads act for the party.
    pub fn is_owned_by_current_thread(&self, party: PartyId) -> bool {
        self.owner.is_owner(self.raw.waiter(), party)
    }

    /// Returns whether any party owns the lock. The answer may be stale at once.
    pub(crate) fn is_owned(&self) -> bool {
        self.owner.is_owned()
    }

    /// `lock`, by a level.
    pub(crate) fn acquire(&self, party: PartyId) -> Result<Level<R>, Fault>
        ensures level { IfOk result (IsNewLevel self.now (id_of party)) }
        ensures fault { IfErr result (λ fault. fault ≡ Fault.FullCount) }
    {
        for _ in self.raw.waiter().forever() {
            match self.again(party) {
                Ok(Some(level)) => return Ok(level),
                Ok(None) => {}
                Err(fault) => return Err(fault),
            }
            if let Some(level) = self.first(party, self.raw.lock()) {
                return Ok(level);
            }
        }
        unreachable!()
    }

    /// `try_lock`, by a level.
    #[tactic(auto, using(crate::proofs::Tries::tried_again, crate::proofs::Tries::tried_first, crate::proofs::Tries::refused_first))]
    pub(crate) fn try_acquire(&self, party: PartyId) -> Result<Option<Level<R>>, Fault>
        ensures tried { IfOk result (TriedFor (R.tried self.now) self.now (id_of party)) }
        ensures fault { IfErr result (λ fault. fault ≡ Fault.FullCount) }
    {
        match self.again(party) {
            Ok(None) => Ok(self.first_of(party, self.raw.try_lock())),
            Ok(Some(level)) => Ok(Some(level)),
            Err(fault) => Err(fault),
        }
    }

    /// Acquires a further level if the party owns the lock.
    fn again(&self, party: PartyId) -> Result<Option<Level<R>>, Fault>
        ensures level { IfOk result (λ got. IfSome got (IsNewLevel self.now (id_of party))) }
        ensures owned { IfOk result (λ got. IfSome got (λ level. WasOwned level.call.step)) }
        ensures other { IfOk result (λ got. got ≡ None → IsNoOwner R.Guard self.now (id_of party)) }
        ensures fault { IfErr result (λ fault. fault ≡ Fault.FullCount) }
    {
        let (answer, call) = self.owner.again(self.raw.waiter(), party);
        match answer {
            Ok(true) => Ok(Some(Level::of(call, party))),
            Ok(false) => {
                call.end();
                Ok(None)
            }
            Err(fault) => {
                call.end();
                Err(fault)
            }
        }
    }

    /// Acquires the party's first level, with this token. If there is an owner it unlocks the token: only a raw lock that
    /// admits too many threads leads there.
    fn first(&self, party: PartyId, token: R::Guard) -> Option<Level<R>>
        requires { R.is_own self.now token ≡ true }
        ensures level { IfSome result (IsNewLevel self.now (id_of party)) }
        ensures token { IfSome result (λ level. HasToken token level.call.step) }
        ensures owned { result ≡ None → FoundOwner R.Guard self.now }
    {
        let (back, call) = self.owner.first(party, token);
        match back {
            Some(token) => {
                call.end();
                self.raw.unlock(token);
                None
            }
            None => Some(Level::of(call, party)),
        }
    }

    /// `first`, if the raw lock gave a token.
    fn first_of(&self, party: PartyId, token: Option<R::Guard>) -> Option<Level<R>>
        requires { IfSome token (λ token. R.is_own self.now token ≡ true) }
        ensures level { IfSome result (IsNewLevel self.now (id_of party)) }
        ensures token { IfSome result (λ level. (given : R.Guard) × (token ≡ Some given) × HasToken given level.call.step) }
        ensures none { result ≡ None → (token ≡ None) ⊎ FoundOwner R.Guard self.now }
    {
        match token {
            Some(token) => self.first(party, token),
            None => None,
        }
    }

    /// Releases one level, and returns the token with the last level.
    fn leave(&self, party: PartyId) -> Result<Option<R::Guard>, Fault>
        ensures lost { IfOk result (λ _. HasLost R.is_own self.now (id_of party)) }
        ensures fault { IfErr result (λ fault. fault ≡ Fault.Foreign) }
        ensures own { IfOk result (λ last. IfSome last (λ token. R.is_own self.now token ≡ true)) }
    {
        let (answer, call) = self.owner.leave(self.raw.waiter(), party);
        match answer {
            Ok(last) => {
                call.settle();
                Ok(last)
            }
            Err(fault) => {
                call.end();
                Err(fault)
            }
        }
    }
}

impl<R: RawMutexFair> RawReentrantMutex<R> {
    /// `unlock`, by a fair release of the raw lock.
    pub fn unlock_fair(&self, party: PartyId) -> Result<(), Fault>
        ensures lost { IfOk result (λ _. HasLost R.is_own self.now (id_of party)) }
        ensures fault { IfErr result (λ fault. fault ≡ Fault.Foreign) }
    {
        if let Some(token) = self.leave(party)? {
            self.raw.unlock_fair(token);
        }
        Ok(())
    }

    /// At one level, releases the raw lock by a fair release, and reacquires it, blocking until it is available. At
    /// more levels it does nothing.
    ///
    /// # Errors
    ///
    /// `Foreign` if the party does not own the lock.
    pub fn bump(&self, party: PartyId) -> Result<(), Fault>
        ensures bumped { IfOk result (λ _. HasGained R.is_own self.now (id_of party) ⊎ HasSeveral R.Guard self.now (id_of party)) }
        ensures fault { IfErr result (λ fault. fault ≡ Fault.Foreign) }
    {
        if let Some(token) = self.leave_sole(party)? {
            let next = self.raw.bump(token);
            match self.first(party, next) {
                Some(level) => drop(level.keep()),
                None => self.lock_retrying(party),
            }
        }
        Ok(())
    }

    /// Releases the only level of a party, and returns its token.
    fn leave_sole(&self, party: PartyId) -> Result<Option<R::Guard>, Fault>
        ensures several { IfOk result (λ last. last ≡ None → HasSeveral R.Guard self.now (id_of party)) }
        ensures fault { IfErr result (λ fault. fault ≡ Fault.Foreign) }
        ensures own { IfOk result (λ last. IfSome last (λ token. R.is_own self.now token ≡ true)) }
    {
        let (answer, call) = self.owner.leave_sole(self.raw.waiter(), party);
        match answer {
            Ok(Some(token)) => {
                call.settle();
                Ok(Some(token))
            }
            Ok(None) => {
                call.end();
                Ok(None)
            }
            Err(fault) => {
                call.end();
                Err(fault)
            }
        }
    }

    /// `lock`, which tries again also where the party has all its levels.
    fn lock_retrying(&self, party: PartyId)
        ensures { HasGained R.is_own self.now (id_of party) }
    {
        for _ in self.raw.waiter().forever() {
            if let Ok(()) = self.lock(party) {
                return;
            }
        }
        unreachable!()
    }
}

impl<R: RawMutexTimed> RawReentrantMutex<R> {
    /// `try_lock`, where the raw lock may block for at most `timeout`.
    #[tactic(auto, using(crate::proofs::Tries::tried_level))]
    pub fn try_lock_for(&self, party: PartyId, timeout: R::Duration) -> Result<bool, Fault>
        ensures tried { IfOk result (TriedLevel (R.tried_for self.now timeout) R.is_own self.now (id_of party)) }
        ensures fault { IfErr result (λ fault. fault ≡ Fault.FullCount) }
    {
        match self.try_acquire_for(party, timeout) {
            Ok(got) => Ok(kept(got)),
            Err(fault) => Err(fault),
        }
    }

    /// `try_lock_for`, by a level.
    #[tactic(auto, using(crate::proofs::Tries::tried_again, crate::proofs::Tries::tried_first, crate::proofs::Tries::refused_first))]
    pub(crate) fn try_acquire_for(
        &self,
        party: PartyId,
        timeout: R::Duration,
    ) -> Result<Option<Level<R>>, Fault>
        ensures tried { IfOk result (TriedFor (R.tried_for self.now timeout) self.now (id_of party)) }
        ensures fault { IfErr result (λ fault. fault ≡ Fault.FullCount) }
    {
        match self.again(party) {
            Ok(None) => Ok(self.first_of(party, self.raw.try_lock_for(timeout))),
            Ok(Some(level)) => Ok(Some(level)),
            Err(fault) => Err(fault),
        }
    }

    /// `try_lock`, where the raw lock may block until `deadline`.
    #[tactic(auto, using(crate::proofs::Tries::tried_level))]
    pub fn try_lock_until(&self, party: PartyId, deadline: R::Instant) -> Result<bool, Fault>
        ensures tried { IfOk result (TriedLevel (R.tried_until self.now deadline) R.is_own self.now (id_of party)) }
        ensures fault { IfErr result (λ fault. fault ≡ Fault.FullCount) }
    {
        match self.try_acquire_until(party, deadline) {
            Ok(got) => Ok(kept(got)),
            Err(fault) => Err(fault),
        }
    }

    /// `try_lock_until`, by a level.
    #[tactic(auto, using(crate::proofs::Tries::tried_again, crate::proofs::Tries::tried_first, crate::proofs::Tries::refused_first))]
    pub(crate) fn try_acquire_until(
        &self,
        party: PartyId,
        deadline: R::Instant,
    ) -> Result<Option<Level<R>>, Fault>
        ensures tried { IfOk result (TriedFor (R.tried_until self.now deadline) self.now (id_of party)) }
        ensures fault { IfErr result (λ fault. fault ≡ Fault.FullCount) }
    {
        match self.again(party) {
            Ok(None) => Ok(self.first_of(party, self.raw.try_lock_until(deadline))),
            Ok(Some(level)) => Ok(Some(level)),
            Err(fault) => Err(fault),
        }
    }
}

/// Answers whether there is a level, and leaves it to its party.
fn kept<R: RawMutex>(got: Option<Level<R>>) -> bool
    ensures { AnswersLevel R.is_own got result }
{
    match got {
        Some(level) => {
            level.keep();
            true
        }
        None => false,
    }
}
