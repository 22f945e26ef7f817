//! Guards of a part of a mutex's value.
use super::watched;
use lock_guard::guard::{Acquire, AcquireFair, LockGuardMut, Mapped, ValueGuard, ValueGuardMut};
use lock_modes::Mode::Exclusive;
use lock_mutex::{Guard, Mutex};
use lock_parts::{Missed, TryProject};
use lock_raws_monitor::TokenRaw;
use lock_recorder::RawCall::{IsLocked, Lock, Unlock, UnlockFair};
use lock_test_support::answer::equal;
use lock_test_support::project::{Item0, Item1, Nested, NthItem, inner_item};
use lock_test_support::raw_lock::CallWatch;
use lock_traits::{RawMutex, RawMutexFair};
use std::alloc::Global;
use std::test::Fail;

type Pair = (u64, u64);

/// Writes 9 to the second item of the first pair, through two maps.
fn write_inner<L: AcquireFair>(guard: Guard<L>)
where
    L::Shown: ValueGuard<Value = Nested> + ValueGuardMut,
{
    let first = Guard::map(guard, Item0);
    let mut second = Mapped::map(first, Item1);
    *second = 9;
    Mapped::unlock_fair(second);
}

/// Writes 8 to the part, which the guard releases. Returns what the part was.
fn write_part<G: LockGuardMut, P: TryProject<G::Value, Part = u64> + Copy>(
    part: Mapped<G, P>,
) -> Option<u64> {
    let mut part = part;
    let item = *Mapped::get(&part)?;
    *Mapped::get_mut(&mut part)? = 8;
    Some(item)
}

/// Misses a third and a sixth item, and then writes 8 to the second one. Returns whether the mutex is held after the first
/// miss, the last miss, and the second item before it is written.
fn miss_and_write<R: RawMutex, L: Acquire>(
    mutex: &Mutex<R, Pair>,
    guard: Guard<L>,
) -> Option<(bool, usize, u64)>
where
    L::Shown: ValueGuard<Value = Pair> + ValueGuardMut,
{
    let guard = Guard::try_map(guard, NthItem(2)).err()?;
    let is_locked = mutex.is_locked();
    let (guard, missed) = Guard::try_map_or_err(guard, NthItem(5)).err()?;
    let item = write_part(Guard::try_map(guard, NthItem(1)).ok()?)?;
    Some((is_locked, missed, item))
}

/// The misses of a fifth item of the first pair: by both projections at once, and by one after the other.
fn misses_of_the_second<L: Acquire>(guard: Guard<L>) -> Option<[Missed<(), usize>; 2]>
where
    L::Shown: ValueGuard<Value = Nested>,
{
    let (guard, at_once) = Guard::try_map_or_err(guard, inner_item(4)).err()?;
    let first = Guard::map(guard, Item0);
    let (_, in_turn) = Mapped::try_map_or_err(first, NthItem(4)).err()?;
    Some([at_once, in_turn])
}

/// Misses and writes parts of a pair in a pair. Returns the misses.
fn miss_and_write_nested<R: RawMutexFair>(
    mutex: &Mutex<R, Nested>,
    watch: &mut CallWatch,
) -> Option<[Missed<(), usize>; 2]> {
    let misses = misses_of_the_second(mutex.lock());
    watch.saw(&[Lock(Exclusive), Unlock(Exclusive)]);
    write_inner(mutex.lock());
    watch.saw(&[Lock(Exclusive), UnlockFair(Exclusive)]);
    misses
}

/// Misses and writes parts of a pair in a pair. Returns the raw lock.
fn check_nested<R: RawMutexFair + Drop>(
    mutex: Mutex<R, Nested>,
    watch: &mut CallWatch,
) -> Result<R, Fail> {
    let mut mutex = mutex;
    *mutex.get_mut() = ((1, 2), 3);
    let misses = miss_and_write_nested(&mutex, watch);
    let (raw, value) = mutex.into_inner_with_raw();
    equal((misses, value), (Some([Missed::Second(4); 2]), ((1, 9), 3)))?;
    Ok(raw)
}

/// Misses and writes items of a pair.
fn check_pair<R: RawMutex + Drop>(
    mutex: Mutex<R, Pair>,
    watch: &mut CallWatch,
) -> Result<(), Fail> {
    let seen = miss_and_write(&mutex, mutex.lock());
    watch.saw(&[Lock(Exclusive), IsLocked, Unlock(Exclusive)]);
    equal((seen, mutex.into_inner()), (Some((true, 5, 2)), (1, 8)))
}

fn check<R: RawMutexFair + Drop>(alloc: Global, waiter: R::Waiter) -> Result<(), Fail> {
    let (mutex, mut watch) = watched::<R, Nested>(alloc, waiter, ((0, 0), 0))?;
    let raw = check_nested(mutex, &mut watch)?;
    check_pair(Mutex::from_raw(raw, (1, 2))?, &mut watch)?;
    watch.saw(&[]);
    watch.verdict()
}

#[test]
fn guards_write_and_miss_parts(rt: HostRuntime) -> Result<(), Fail> {
    check::<TokenRaw<HostRuntime>>(rt.alloc(), rt)
}
