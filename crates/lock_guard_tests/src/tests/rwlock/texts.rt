//! How a lock and its guards print, and the raw calls that this makes.
use lock_guard::guard::{Acquire, ValueGuard};
use lock_modes::Mode::{self, Exclusive, Shared, Upgradable};
use lock_recorder::RawCall::{Lock, TryLock, Unlock};
use lock_rwlock::{ArcModeGuard, Mappable, ReadValue, RwLock, RwLockGuard};
use lock_test_support::answer::{debug_is, equal, texts_are};
use lock_test_support::project::{Item1, Nested};
use lock_test_support::raw_lock::CallWatch;
use lock_traits::{RawRwLock, RawRwLockUpgrade};
use std::alloc::Global;
use std::fmt::{Debug, Display};
use std::sync::Arc;
use std::test::Fail;

/// Whether both texts of the guard, which was just acquired in the mode, are right. They make no raw call.
fn prints<G: Debug + Display + Drop>(
    alloc: Global,
    watch: &mut CallWatch,
    guard: G,
    mode: Mode,
) -> bool {
    let is_right = texts_are(alloc, guard, "5");
    watch.saw(&[Lock(mode), Unlock(mode)]);
    is_right
}

/// The text of a lock of 5 tries to read.
fn lock_prints<R: RawRwLock>(
    alloc: Global,
    lock: &RwLock<R, u64>,
    watch: &mut CallWatch,
) -> Result<(), Fail> {
    let reader = lock.read();
    let beside_a_reader = debug_is(alloc, lock, "RwLock { data: 5 }");
    drop(reader);
    let writer = lock.write();
    let beside_a_writer = debug_is(alloc, lock, "RwLock { data: <locked> }");
    drop(writer);
    watch.saw(&[
        Lock(Shared),
        TryLock(Shared),
        Unlock(Shared),
        Unlock(Shared),
        Lock(Exclusive),
        TryLock(Shared),
        Unlock(Exclusive),
    ]);
    equal([beside_a_reader, beside_a_writer], [true; 2])
}

/// `prints`, of a guard that borrows the lock.
fn guard_prints<L: Acquire>(
    alloc: Global,
    watch: &mut CallWatch,
    guard: RwLockGuard<L>,
    mode: Mode,
) -> bool
where
    L::Shown: ValueGuard<Value = u64>,
{
    prints(alloc, watch, guard, mode)
}

/// The texts of guards that borrow the lock.
fn check_borrowing_guards<R: RawRwLockUpgrade>(
    alloc: Global,
    lock: &RwLock<R, u64>,
    watch: &mut CallWatch,
) -> Result<(), Fail> {
    let reader = guard_prints(alloc, watch, lock.read(), Shared);
    let writer = guard_prints(alloc, watch, lock.write(), Exclusive);
    let upgradable = guard_prints(alloc, watch, lock.upgradable_read(), Upgradable);
    equal(
        [
            ("RwLockReadGuard", reader),
            ("RwLockWriteGuard", writer),
            ("RwLockUpgradableReadGuard", upgradable),
        ],
        [
            ("RwLockReadGuard", true),
            ("RwLockWriteGuard", true),
            ("RwLockUpgradableReadGuard", true),
        ],
    )
}

/// `prints`, of a guard that owns a reference to the lock.
fn arc_guard_prints<L: ReadValue<Value = u64>>(
    alloc: Global,
    watch: &mut CallWatch,
    guard: ArcModeGuard<L>,
    mode: Mode,
) -> bool {
    prints(alloc, watch, guard, mode)
}

/// The texts of guards that own a reference to the lock.
fn check_owning_guards<R: RawRwLockUpgrade + Drop>(
    alloc: Global,
    lock: &Arc<RwLock<R, u64>>,
    watch: &mut CallWatch,
) -> Result<(), Fail> {
    let reader = arc_guard_prints(alloc, watch, RwLock::read_arc(lock)?, Shared);
    let writer = arc_guard_prints(alloc, watch, RwLock::write_arc(lock)?, Exclusive);
    let guard = RwLock::upgradable_read_arc(lock)?;
    let upgradable = arc_guard_prints(alloc, watch, guard, Upgradable);
    equal(
        [
            ("ArcRwLockReadGuard", reader),
            ("ArcRwLockWriteGuard", writer),
            ("ArcRwLockUpgradableReadGuard", upgradable),
        ],
        [
            ("ArcRwLockReadGuard", true),
            ("ArcRwLockWriteGuard", true),
            ("ArcRwLockUpgradableReadGuard", true),
        ],
    )
}

/// The texts of a lock of 5.
pub fn check<R: RawRwLockUpgrade + Drop>(
    alloc: Global,
    lock: &Arc<RwLock<R, u64>>,
    watch: &mut CallWatch,
) -> Result<(), Fail> {
    lock_prints(alloc, lock, watch)?;
    check_borrowing_guards(alloc, lock, watch)?;
    check_owning_guards(alloc, lock, watch)
}

/// Whether both texts of the guard's part, which is 5, are right.
fn part_prints<L: Mappable>(
    alloc: Global,
    watch: &mut CallWatch,
    guard: RwLockGuard<L>,
    mode: Mode,
) -> bool
where
    L::Shown: ValueGuard<Value = Nested>,
{
    prints(alloc, watch, RwLockGuard::map(guard, Item1), mode)
}

/// Whether the texts of a reader's part and of a writer's part are right.
pub fn parts_print<R: RawRwLock>(
    alloc: Global,
    lock: &RwLock<R, Nested>,
    watch: &mut CallWatch,
) -> [bool; 2] {
    let read = part_prints(alloc, watch, lock.read(), Shared);
    [read, part_prints(alloc, watch, lock.write(), Exclusive)]
}
