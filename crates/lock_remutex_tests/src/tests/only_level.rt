//! A lock whose owner may have one level, and a raw lock that admits everything.
use lock_modes::{Fault, PartyId};
use lock_raws_monitor::TokenRaw;
use lock_remutex::{ReentrantMutex, ReentrantMutexGuard};
use lock_test_support::answer::equal;
use lock_test_support::raw_lock::AdmitsAll;
use lock_test_support::{party, two_parties};
use lock_traits::RawMutex;
use std::alloc::Global;
use std::test::Fail;

/// The refusal of `unlocked` whose closure acquires the only level, and the closure's guard.
pub fn taken_meanwhile<'a, R: RawMutex>(
    guard: ReentrantMutexGuard<'a, R, u8>,
    party: PartyId,
) -> Option<(Fault, ReentrantMutexGuard<'a, R, u8>)> {
    let lock = ReentrantMutexGuard::remutex(&guard);
    let (fault, taken) = ReentrantMutexGuard::unlocked(guard, || lock.lock(party)).err()?;
    Some((fault, taken.ok()?))
}

/// The refusal of `taken_meanwhile`, the value that its guard reads, and whether the lock is held beside that guard and
/// after its end.
fn seen_meanwhile<R: RawMutex>(
    lock: &ReentrantMutex<R, u8>,
    party: PartyId,
) -> Option<(Fault, u8, bool, bool)> {
    let (fault, taken) = taken_meanwhile(lock.lock(party).ok()?, party)?;
    let value = *taken;
    let is_held = lock.is_locked();
    drop(taken);
    Some((fault, value, is_held, lock.is_locked()))
}

fn check_only_level<R: RawMutex + Drop>(
    alloc: Global,
    waiter: R::Waiter,
    party: PartyId,
) -> Result<(), Fail>
where
    R::Guard: Send,
{
    let lock: ReentrantMutex<R, u8> = ReentrantMutex::with_levels(alloc, waiter, 1, 7)?;
    let seen = seen_meanwhile(&lock, party);
    equal(seen, Some((Fault::FullCount, 7, true, false)))
}

#[test]
fn a_level_that_is_taken_meanwhile_ends_free(rt: HostRuntime) -> Result<(), Fail> {
    check_only_level::<TokenRaw<HostRuntime>>(rt.alloc(), rt, party(1)?)
}

/// Whether the try gave a guard, which ends.
fn is_given<G: Drop>(tried: Result<Option<G>, Fault>) -> Result<bool, Fault> {
    Ok(tried?.is_some())
}

/// Whether another party gets a guard beside the owner's, and whether the owner still owns the lock.
fn beside_the_owner<R: RawMutex>(
    lock: &ReentrantMutex<R, u8>,
    one: PartyId,
    two: PartyId,
) -> Result<(Result<bool, Fault>, bool), Fault> {
    let _guard = lock.lock(one)?;
    let is_given = is_given(lock.try_lock(two));
    Ok((is_given, lock.is_owned_by_current_thread(one)))
}

fn check_second_guard<R: RawMutex + Drop>(
    alloc: Global,
    waiter: R::Waiter,
    (one, two): (PartyId, PartyId),
) -> Result<(), Fail>
where
    R::Guard: Send,
{
    let lock: ReentrantMutex<R, u8> = ReentrantMutex::new(alloc, waiter, 7)?;
    equal(beside_the_owner(&lock, one, two), Ok((Ok(false), true)))
}

#[test]
fn a_raw_lock_that_lies_makes_no_second_guard(rt: HostRuntime) -> Result<(), Fail> {
    check_second_guard::<AdmitsAll<HostRuntime>>(rt.alloc(), rt, two_parties()?)
}
