//! The steps of a user on the word, the epoch and the slot.
ghost use Rattle.std.specs.Prelude.{◌≡◌, ◌<◌, [], None, IfSome};
ghost use Rattle.lock_ruled.specs.declared.rule.UserStage.TheVariants.{Free, Owes, Sleeps};
ghost use Rattle.lock_ruled.specs.Ruled.{Keeps};
ghost use Rattle.lock_ruled.specs.Plays.{at_stage, stage_after_release, Carries, EndsEpoch, HasAcquired};
ghost use Rattle.lock_ruled.specs.Acquiring.{MayAcquire, MayHaveAcquired};
ghost use Rattle.lock_wake.specs.OwedWakes.{owed};
ghost use Rattle.lock_wake.specs.Watches.{word_of, number_of};
ghost use Rattle.lock_wake.specs.declared.owed_wake.Whom.TheVariants.{All};

use crate::guard::RuledGuard;
use crate::mutex::found_held::FoundHeld;
use crate::mutex::{AWAITED, EPOCH, FREE, LAST_EPOCH, RuledMutex, TAKEN, WORD};
use crate::plays::{Leave, MarkAwaited, NoteMutexEpoch, TryLock, Unlock, WatchMutexEpoch};
use crate::rule::{MutexRule, UserView, ViewUpdate};
use atomic_table::{Play, Seat};
use lock_wake::{OwedWake, Watched, Whom};
use std::sync::Wait;
use std::time::Duration;

/// An exchange that ends the epoch. Only `end_epoch` makes it, so whoever ends an epoch owes its wake-up.
pub(crate) struct EndMutexEpoch;

impl<T, V> Play<Option<T>, UserView<T, V>> for EndMutexEpoch {
    ghost then = { λ s. EndsEpoch };
}

impl<T: Drop, V, P: MutexRule<T, V>> RuledMutex<T, V, P> {
    /// Tries to acquire, by one exchange.
    pub(crate) fn try_acquire(&self, seat: &mut Seat<Option<T>, UserView<T, V>>) -> bool
        requires { MayAcquire self.now seat.old }
        ensures { MayHaveAcquired P.rule result seat.old seat.new }
    {
        self.table
            .shared
            .compare_exchange::<TryLock<P>>(seat, WORD, FREE, TAKEN)
            == FREE
    }

    /// Takes the value out of the slot, which the user has acquired.
    pub(crate) fn guard_of(&self, mut seat: Seat<Option<T>, UserView<T, V>>) -> RuledGuard<T, V>
        requires mutex { seat.table_id ≡ self.now }
        requires out { (value : T) × Carries seat.me value value }
        requires part { 0 < seat.me.0.parts }
        ensures user { result.user ≡ record { mutex = self.now; parts = seat.me.0.parts; view = seat.me.0.own } }
        ensures value { (value : T) → Carries seat.me value value → (result.taken ≡ value) × (result.value ≡ value) }
    {
        match self.table.shared.exchange(&mut seat, 0, None) {
            Some(value) => RuledGuard { value, seat },
            None => unreachable!(),
        }
    }

    /// Loads the epoch, and then marks the mutex as awaited by an exchange, which acquires the mutex if it was free.
    /// Returns the epoch for which the user has to sleep, or `None` if it acquired.
    pub(crate) fn mark(&self, seat: &mut Seat<Option<T>, UserView<T, V>>) -> Option<Watched>
        requires { MayAcquire self.now seat.old }
        ensures seat { seat.new.table_id ≡ seat.old.table_id }
        ensures taken { result ≡ None → HasAcquired P.rule seat.old.me seat.new.me }
        ensures word { IfSome result (λ watched. word_of watched ≡ 1) }
        ensures held { IfSome result (λ watched. seat.new.me ≡ at_stage seat.old.me (Sleeps (number_of watched))) }
    {
        let shared = &self.table.shared;
        let epoch = shared.load::<WatchMutexEpoch>(seat, EPOCH);
        if shared.swap::<MarkAwaited<P>>(seat, WORD, AWAITED) == FREE {
            None
        } else {
            Some(Watched::new(EPOCH, epoch))
        }
    }

    /// Parks the thread until the epoch ends, or for at most `time`. The rule promises that no such user is forgotten.
    pub(crate) fn park<R: Wait>(
        &self,
        rt: &R,
        seat: &Seat<Option<T>, UserView<T, V>>,
        watched: &Watched,
        time: Option<Duration>,
    )
        requires mutex { seat.now.table_id ≡ self.now }
        requires word { word_of watched.now ≡ 1 }
        requires sleeps { seat.now.me.0.stage ≡ Sleeps (number_of watched.now) }
    {
        watched.park(rt, &self.table.shared, LAST_EPOCH, time);
    }

    /// Ends a sleep in the rule, by a load of the epoch. After that the user has nothing to park for. Also returns the
    /// evidence that the mutex was held.
    pub(crate) fn leave(
        &self,
        seat: &mut Seat<Option<T>, UserView<T, V>>,
        watched: Watched,
    ) -> FoundHeld<T, V>
        requires mutex { seat.old.table_id ≡ self.now }
        requires sleeps { seat.old.me.0.stage ≡ Sleeps (number_of watched) }
        ensures seat { seat.new.table_id ≡ seat.old.table_id }
        ensures left { seat.new.me ≡ at_stage seat.old.me Free }
        ensures found { result.mutex ≡ self.now }
    {
        let found = FoundHeld::of(&*seat);
        watched.end();
        self.table.shared.load::<Leave>(seat, EPOCH);
        found
    }

    /// Puts the value back into the slot, and marks the mutex as free. Returns whether it was awaited, which makes the user
    /// due.
    pub(crate) fn put_back<M: ViewUpdate<T, V>>(
        &self,
        guard: RuledGuard<T, V>,
    ) -> (Seat<Option<T>, UserView<T, V>>, bool)
        requires mutex { guard.user.mutex ≡ self.now }
        requires rule { Keeps P.rule guard.taken guard.user.view guard.value
            (M.next guard.taken guard.user.view guard.value) }
        ensures seat { (result.0.table_id ≡ self.now) × (result.0.me.1 ≡ []) }
        ensures parts { (result.0.me.0.parts ≡ guard.user.parts) × (0 < guard.user.parts) }
        ensures view { result.0.me.0.own ≡ M.next guard.taken guard.user.view guard.value }
        ensures stage { result.0.me.0.stage ≡ stage_after_release result.1 }
    {
        let RuledGuard { value, mut seat } = guard;
        match self.table.shared.exchange(&mut seat, 0, Some(value)) {
            None => {}
            Some(_) => unreachable!(),
        }
        let found = self.table.shared.swap::<Unlock<M>>(&mut seat, WORD, FREE);
        (seat, found == AWAITED)
    }

    /// Ends the epoch, unless another user did. It owes a wake-up to all users that sleep, also where another user ended
    /// the epoch.
    pub(crate) fn end_epoch(&self, seat: &mut Seat<Option<T>, UserView<T, V>>) -> OwedWake
        requires mutex { seat.old.table_id ≡ self.now }
        requires owes { seat.old.me.0.stage ≡ Owes }
        ensures seat { seat.new.table_id ≡ seat.old.table_id }
        ensures done { seat.new.me ≡ at_stage seat.old.me Free }
        ensures wake { result ≡ owed 1 All }
    {
        let shared = &self.table.shared;
        let epoch = shared.load::<NoteMutexEpoch>(seat, EPOCH);
        if epoch < LAST_EPOCH {
            shared.compare_exchange::<EndMutexEpoch>(seat, EPOCH, epoch, epoch + 1);
        }
        OwedWake::new(EPOCH, Whom::All)
    }

    /// Makes the wake-up of all users that sleep.
    pub(crate) fn wake(&self, wake_up: OwedWake)
        requires { wake_up ≡ owed 1 All }
    {
        wake_up.make(&self.table.shared);
    }
}
