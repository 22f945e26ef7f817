//! Producers and consumers that sleep on condition variables.
use lock_modes::Fault;
use lock_mutex::{Condvar, Mutex};
use lock_raws::WordRaw;
use lock_raws_condvar::SleepingCondvar;
use lock_raws_monitor::TokenRaw;
use lock_test_support::answer::equal;
use lock_traits::RawMutex;
use std::alloc::Global;
use std::test::Fail;
use std::thread::{self, Threads};

/// How many items each producer puts, and each consumer takes.
const EACH: u64 = 10_000;

/// Room for one item.
#[derive(Drop)]
struct OneItem<R: RawMutex> {
    item: Mutex<R, Option<u64>>,
    filled: Condvar<SleepingCondvar<R>>,
    emptied: Condvar<SleepingCondvar<R>>,
}

impl<R: RawMutex + Drop> OneItem<R> {
    fn new(alloc: Global, waiter: R::Waiter) -> Result<OneItem<R>, Fault> {
        Ok(OneItem {
            filled: Condvar::new(alloc)?,
            emptied: Condvar::new(alloc)?,
            item: Mutex::new(alloc, waiter, None)?,
        })
    }

    /// Puts the next item once there is room, or with no next item takes one once there is one. Returns what it takes.
    fn swap(&self, next: Option<u64>) -> Option<u64> {
        let (ready, swapped) = match next {
            Some(_) => (&self.emptied, &self.filled),
            None => (&self.filled, &self.emptied),
        };
        let mut slot = self.item.lock();
        ready.wait_while(&mut slot, |slot| slot.is_some() == next.is_some());
        let taken = *slot;
        *slot = next;
        drop(slot);
        swapped.notify_one();
        taken
    }

    /// Puts this item and those after it. Takes none, so their sum is 0.
    fn produce(&self, first: u64) -> u64 {
        for index in 0..EACH {
            self.swap(Some(first.wrapping_add(index)));
        }
        0
    }

    /// Takes items, and returns their sum.
    fn consume(&self) -> u64 {
        let mut sum: u64 = 0;
        for _ in 0..EACH {
            sum = sum.wrapping_add(self.swap(None).unwrap_or(0));
        }
        sum
    }
}

/// The sum of 1 to 20,000, if each item is taken once.
fn sum_of_all<T: Threads + Sync, R: RawMutex + Drop + Sync>(
    rt: &T,
    alloc: Global,
    waiter: R::Waiter,
) -> Result<u64, Fail>
where
    R::Waiter: Send,
{
    let slot: OneItem<R> = OneItem::new(alloc, waiter)?;
    let sums = thread::map_indices(
        rt,
        alloc,
        4,
        &|thread| match thread {
            0 => slot.produce(1),
            1 => slot.produce(1 + EACH),
            _ => slot.consume(),
        },
    )?;
    Ok(sums[2].wrapping_add(sums[3]))
}

#[test]
fn each_item_arrives_once(rt: HostRuntime) -> Result<(), Fail> {
    let on_word = sum_of_all::<HostRuntime, WordRaw<HostRuntime>>(&rt, rt.alloc(), rt)?;
    let over_table = sum_of_all::<HostRuntime, TokenRaw<HostRuntime>>(&rt, rt.alloc(), rt)?;
    equal([on_word, over_table], [200_010_000; 2])
}
