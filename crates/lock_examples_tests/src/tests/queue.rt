//! Producers and consumers on threads.
use lock_api::raw::{LockCore, RawLock, SleepingCondvar, SpuriousCondvar, TokenRaw, WordRaw};
use lock_examples::Queue;
use std::alloc::{AllocError, Global};
use std::sync::Wait;
use std::test::Fail;
use std::thread::{self, Threads};

/// How many items each producer pushes, and each consumer pops.
const EACH: u64 = 500;

/// What threads share to hand items on.
trait Belt {
    /// Where a thread waits.
    type Waiter: Wait;

    /// Pushes items from this one on.
    fn produce(&self, first: u64);

    /// The items that were popped.
    fn consume(&self, alloc: Global) -> Result<Vec<u64>, AllocError>;
}

impl<C: LockCore> Belt for Queue<SleepingCondvar<RawLock<C>>, u64> {
    type Waiter = C::Waiter;

    fn produce(&self, first: u64) {
        for item in first..first.saturating_add(EACH) {
            self.push(item);
        }
    }

    fn consume(&self, alloc: Global) -> Result<Vec<u64>, AllocError> {
        let mut items = Vec::new(alloc);
        for _ in 0..EACH {
            items.push(self.pop())?;
        }
        Ok(items)
    }
}

/// What two consumers popped, in order.
fn consume_twice<T: Threads, B: Belt + Sync>(
    rt: &T,
    belt: &B,
    alloc: Global,
) -> Result<Vec<u64>, AllocError> {
    let (first, second) = thread::join(rt, || belt.consume(alloc), || belt.consume(alloc));
    let mut all = first?;
    all.extend_from_slice(&second?)?;
    all.sort()?;
    Ok(all)
}

/// What two consumers popped, in order, of what two producers pushed.
fn hand_on<T: Threads + Sync, B: Belt + Sync>(
    rt: &T,
    belt: &B,
    alloc: Global,
) -> Result<Vec<u64>, AllocError> {
    let (_, popped) = thread::join(
        rt,
        || thread::join(rt, || belt.produce(0), || belt.produce(EACH)),
        || consume_twice(rt, belt, alloc),
    );
    popped
}

#[test]
fn each_item_arrives_once(rt: HostRuntime) -> Result<(), Fail> {
    let alloc: Global = rt.alloc();
    let queue: Queue<SleepingCondvar<WordRaw<HostRuntime>>, u64> = Queue::new(alloc, rt, 7)?;
    let popped = hand_on(&rt, &queue, alloc)?;
    let mut pushed = Vec::new(alloc);
    for item in 0..2 * EACH {
        pushed.push(item)?;
    }
    assert!(rt; popped == pushed);
    assert_eq!(rt; queue.try_pop(), None);
    Ok(())
}

/// What a queue of two places answers to pushes of 2 to 5, after one of 1, and to four pops. The first pop makes room for 5.
fn fill<C: LockCore<Duration = (), Instant = ()>>(
    queue: &Queue<SpuriousCondvar<RawLock<C>>, u64>,
) -> ([Result<(), u64>; 4], [Option<u64>; 4]) {
    queue.push(1);
    let full = [queue.try_push(2), queue.try_push(3), queue.push_for(4, ())];
    let first = Some(queue.pop());
    let last = queue.push_for(5, ());
    let popped = [first, queue.try_pop(), queue.try_pop(), queue.try_pop()];
    ([full[0], full[1], full[2], last], popped)
}

#[test]
fn a_full_queue_gives_the_item_back(rt: HostRuntime) -> Result<(), Fail> {
    let queue: Queue<SpuriousCondvar<TokenRaw<HostRuntime>>, u64> = Queue::new(rt.alloc(), rt, 2)?;
    let pushed = [Ok(()), Err(3), Err(4), Ok(())];
    assert_eq!(rt; fill(&queue), (pushed, [Some(1), Some(2), Some(5), None]));
    Ok(())
}
