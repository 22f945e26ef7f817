//! A registry that two threads fill.
use crate::tests::in_threads::{Counts, twice};
use lock_api::MappedRwLockReadGuard;
use lock_api::raw::{LockCore, RawLock, WordRaw};
use lock_examples::{Registry, read_twice};
use std::alloc::AllocFailed;
use std::test::Fail;

/// Which of three entries are added, the last under a key that has one.
fn add_three<C: LockCore>(
    registry: &Registry<RawLock<C>, u64>,
) -> Result<[bool; 3], AllocFailed<(u64, u64)>> {
    Ok([
        registry.add(1, 10)?,
        registry.add(2, 20)?,
        registry.add(1, 30)?,
    ])
}

/// The entry under 1, read twice and once more; and while it is held, whether there is one under 2, and the key that a
/// lookup under 3 misses.
type Seen = ((Option<u64>, Option<u64>), Option<u64>, bool, Option<u64>);

fn look_at_three<C: LockCore>(registry: &Registry<RawLock<C>, u64>) -> Result<Seen, u64> {
    let one = registry.look(1)?;
    let first_read = read_twice(&one);
    let two = registry.look(2);
    let missed = registry.look(3).err();
    let last_read = MappedRwLockReadGuard::get(&one).copied();
    Ok((first_read, last_read, two.is_ok(), missed))
}

/// What adds and look-ups in one registry answer.
fn add_and_look<C: LockCore>(
    registry: &Registry<RawLock<C>, u64>,
) -> Result<([bool; 3], Result<Seen, u64>), Fail> {
    Ok((add_three(registry)?, look_at_three(registry)))
}

#[test]
fn entries_are_read_side_by_side(rt: HostRuntime) -> Result<(), Fail> {
    let registry: Registry<WordRaw<HostRuntime>, u64> = Registry::new(rt.alloc(), rt)?;
    let wanted = ((Some(10), Some(10)), Some(10), true, Some(3));
    assert_eq!(rt; add_and_look(&registry)?, ([true, true, false], Ok(wanted)));
    Ok(())
}

impl<C: LockCore> Counts for Registry<RawLock<C>, u64> {
    type Waiter = C::Waiter;

    /// How many of the keys below 50 this call added.
    fn count(&self) -> u64 {
        let mut added: u64 = 0;
        for key in 0..50 {
            if let Ok(true) = self.add(key, key) {
                added = added.wrapping_add(1);
            }
        }
        added
    }
}

#[test]
fn each_key_is_added_once(rt: HostRuntime) -> Result<(), Fail> {
    let registry: Registry<WordRaw<HostRuntime>, u64> = Registry::new(rt.alloc(), rt)?;
    let (first, second) = twice(&rt, &registry);
    assert_eq!(rt; first.wrapping_add(second), 50);
    assert_eq!(rt; registry.len(), 50);
    Ok(())
}
