//! A growing registry with many readers.
ghost use Rattle.std.specs.Prelude.{◌≡◌, nat_eq};
ghost use Rattle.std.specs.HashMap.{get};

use lock_api::{
    Fault, MappedRwLockReadGuard, RawRwLock, RawRwLockUpgrade, RwLock, RwLockReadGuard,
    RwLockUpgradableReadGuard, TryView,
};
use std::alloc::{AllocFailed, Global};
use std::collections::HashMap;

/// The projection to the value under a key, for reading.
#[derive(Clone, Copy)]
pub struct EntryOf(pub u64);

impl<V> TryView<HashMap<u64, V>> for EntryOf {
    type Part = V;

    type Miss = u64;

    ghost part = { λ entry map. get nat_eq map entry.0 };

    ghost missed = { λ entry map. entry.0 };

    fn get<'a>(&self, map: &'a HashMap<u64, V>) -> Option<&'a V>
    where
        Self: 'a,
    {
        map.get(&self.0)
    }

    fn miss(&self, _map: &HashMap<u64, V>) -> u64 {
        self.0
    }
}

/// A guard of one entry of a registry. While it is held, nothing is added.
pub type EntryGuard<'a, R, V> = MappedRwLockReadGuard<'a, R, HashMap<u64, V>, EntryOf>;

/// Values under keys, which many threads may read at a time.
#[derive(Drop)]
pub struct Registry<R, V> {
    values: RwLock<R, HashMap<u64, V>>,
}

impl<R: RawRwLock + Drop, V: Drop> Registry<R, V> {
    ghost use Rattle.std.specs.Prelude.{IsOkUnless};

    /// Makes a registry without entries.
    pub fn new(alloc: Global, waiter: R::Waiter) -> Result<Registry<R, V>, Fault>
        ensures { IsOkUnless result Fault.OutOfMemory }
    {
        Ok(Registry {
            values: RwLock::new(alloc, waiter, HashMap::new(alloc))?,
        })
    }
}

impl<R: RawRwLock, V> Registry<R, V> {
    ghost use Rattle.std.specs.Prelude.{IfErr};

    /// Returns a guard of the entry under the key, or the key if there is none.
    pub fn look(&self, key: u64) -> Result<EntryGuard<'_, R, V>, u64>
        ensures { IfErr result (λ missed. missed ≡ key) }
    {
        match RwLockReadGuard::try_map_or_err(self.values.read(), EntryOf(key)) {
            Ok(entry) => Ok(entry),
            Err((_, missed)) => Err(missed),
        }
    }

    /// Returns how many entries there are. The answer may be stale at once.
    pub fn len(&self) -> usize {
        self.values.read().len()
    }
}

impl<R: RawRwLockUpgrade, V: Drop> Registry<R, V> {
    ghost use Rattle.std.specs.Prelude.{IfErr};

    /// Adds an entry, unless the key has one, and returns whether it was added. Other threads can read until there is
    /// something to add. Without memory the entry is returned.
    pub fn add(&self, key: u64, value: V) -> Result<bool, AllocFailed<(u64, V)>>
        ensures { IfErr result (λ refused. refused.value ≡ (key, value)) }
    {
        let reader = self.values.upgradable_read();
        if reader.contains_key(&key) {
            return Ok(false);
        }
        let mut writer = RwLockUpgradableReadGuard::upgrade(reader);
        writer.insert(key, value)?;
        Ok(true)
    }
}

/// A value that is read stays as it is while the guard is held.
pub fn read_twice<R: RawRwLock>(entry: &EntryGuard<'_, R, u64>) -> (Option<u64>, Option<u64>)
    ensures { result.0 ≡ result.1 }
{
    let first = MappedRwLockReadGuard::get(entry).copied();
    (first, MappedRwLockReadGuard::get(entry).copied())
}
