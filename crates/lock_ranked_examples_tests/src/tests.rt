//! Ranked locks: what a server, a limit and a bank answer, and a bank on eight threads.
use lock_api::Fault;
use lock_api::ranked::{AtRank, Order, ThreadOrder, join_ranked};
use lock_api::raw::{LockCore, RawLock, SleepingCondvar, WordRaw};
use lock_ranked_examples::{Accounts, Limits, Server, open, total, transfer_both_ways};
use std::alloc::Global;
use std::test::Fail;
use std::thread::Threads;

type Raw = WordRaw<HostRuntime>;

/// A server whose threads sleep on their core's waiters.
type SleepingServer<C> = Server<SleepingCondvar<RawLock<C>>>;

/// The places of three clients, of one that tries, and of one more.
fn enter_all<C: LockCore>(
    server: &SleepingServer<C>,
    order: &mut Order<'_, AtRank<0>>,
) -> ([Option<u64>; 3], [Option<u64>; 2]) {
    let entered = [
        server.enter(order),
        server.enter(order),
        server.enter(order),
    ];
    (entered, [server.try_enter(order), server.take(order)])
}

/// Places that one thread waits for, and another gives back.
trait PlacesGivenBack {
    fn wait(&self, order: &mut Order<'_, AtRank<0>>);

    fn give_back(&self, order: &mut Order<'_, AtRank<0>>);

    /// Returns how many are left once all are taken.
    fn clear(&self, order: &mut Order<'_, AtRank<0>>) -> u64;
}

impl<C: LockCore> PlacesGivenBack for SleepingServer<C> {
    fn wait(&self, order: &mut Order<'_, AtRank<0>>) {
        self.wait_for_place(order);
    }

    fn give_back(&self, order: &mut Order<'_, AtRank<0>>) {
        self.give(order);
    }

    fn clear(&self, order: &mut Order<'_, AtRank<0>>) -> u64 {
        self.empty(order)
    }
}

/// One thread waits for a place while another gives one back. Returns what is left once all are taken.
fn give_to_a_waiter<T: Threads, S: PlacesGivenBack + Sync>(
    rt: &T,
    places: &S,
    order: &mut Order<'_, AtRank<0>>,
) -> u64 {
    join_ranked(
        rt,
        order,
        |mut own: ThreadOrder| places.wait(&mut own.order()),
        |mut own: ThreadOrder| places.give_back(&mut own.order()),
    );
    places.clear(order)
}

#[test]
fn a_server_admits_two_clients(rt: HostRuntime) -> Result<(), Fail> {
    let server: Server<SleepingCondvar<Raw>> = Server::new(rt.alloc(), &rt, 2, 3)?;
    let mut thread = ThreadOrder::start();
    let mut order = thread.order();
    let answers = enter_all(&server, &mut order);
    let left = give_to_a_waiter(&rt, &server, &mut order);
    assert_eq!(rt; answers, ([Some(2), Some(1), None], [Some(0), None]));
    assert_eq!(rt; left, 0);
    Ok(())
}

/// Whether a lower and a higher limit are raised to, and the limit with the number of its changes after that.
fn raise_twice<C: LockCore>(
    limits: &Limits<RawLock<C>>,
    order: &mut Order<'_, AtRank<0>>,
) -> ([bool; 2], [(u64, u64); 2]) {
    let raised = [limits.raise(order, 5), limits.raise(order, 20)];
    let after_raise = limits.look(order);
    limits.set(order, 3);
    (raised, [after_raise, limits.look(order)])
}

#[test]
fn a_limit_is_raised_once(rt: HostRuntime) -> Result<(), Fail> {
    let limits: Limits<Raw> = Limits::new(rt.alloc(), &rt, 10)?;
    let mut thread = ThreadOrder::start();
    let answers = raise_twice(&limits, &mut thread.order());
    assert_eq!(rt; answers, ([false, true], [(20, 1), (3, 2)]));
    Ok(())
}

/// How many accounts the bank has, what each has at first, and how often each thread does its work.
const MANY: u64 = 4;

const EACH: u64 = 1_000;

const TIMES: u64 = 200;

/// What each of eight threads does with what they share.
trait Works {
    /// The work of the thread with this number. Returns whether all that it saw was right.
    fn work(&self, alloc: Global, order: &mut Order<'_, AtRank<0>>, number: usize) -> bool;
}

impl<C: LockCore> Works for Accounts<RawLock<C>> {
    /// Threads with even numbers move money up and down, two others in the other direction; the last two add all up.
    fn work(&self, alloc: Global, order: &mut Order<'_, AtRank<0>>, number: usize) -> bool {
        let (from, to) = (number % 4, number.wrapping_add(1) % 4);
        if number % 4 == 3 {
            return has_all(self, alloc, order);
        }
        if number % 2 == 0 {
            transfer_both_ways(self, order, from, to, TIMES);
        } else {
            transfer_both_ways(self, order, to, from, TIMES);
        }
        true
    }
}

/// Whether the accounts have the same sum each time.
fn has_all<C: LockCore>(
    accounts: &Accounts<RawLock<C>>,
    alloc: Global,
    order: &mut Order<'_, AtRank<0>>,
) -> bool {
    for _ in 0..TIMES {
        if total(accounts, alloc, order) != Ok(MANY.wrapping_mul(EACH)) {
            return false;
        }
    }
    true
}

fn two<T: Threads, S: Works + Sync>(
    rt: &T,
    alloc: Global,
    shared: &S,
    order: &mut Order<'_, AtRank<0>>,
    first: usize,
) -> bool {
    let second = first.wrapping_add(1);
    let (one, other) = join_ranked(
        rt,
        order,
        |mut own: ThreadOrder| shared.work(alloc, &mut own.order(), first),
        |mut own: ThreadOrder| shared.work(alloc, &mut own.order(), second),
    );
    one && other
}

fn four<T: Threads + Sync, S: Works + Sync>(
    rt: &T,
    alloc: Global,
    shared: &S,
    order: &mut Order<'_, AtRank<0>>,
    first: usize,
) -> bool {
    let third = first.wrapping_add(2);
    let (one, other) = join_ranked(
        rt,
        order,
        |mut own: ThreadOrder| two(rt, alloc, shared, &mut own.order(), first),
        |mut own: ThreadOrder| two(rt, alloc, shared, &mut own.order(), third),
    );
    one && other
}

fn eight<T: Threads + Sync, S: Works + Sync>(
    rt: &T,
    alloc: Global,
    shared: &S,
    order: &mut Order<'_, AtRank<0>>,
) -> bool {
    let (one, other) = join_ranked(
        rt,
        order,
        |mut own: ThreadOrder| four(rt, alloc, shared, &mut own.order(), 0),
        |mut own: ThreadOrder| four(rt, alloc, shared, &mut own.order(), 4),
    );
    one && other
}

#[test]
fn the_money_of_a_bank_stays(rt: HostRuntime) -> Result<(), Fail> {
    let accounts: Accounts<Raw> = open(rt.alloc(), &rt, MANY, EACH)?;
    let mut thread = ThreadOrder::start();
    let mut order = thread.order();
    let is_right = eight(&rt, rt.alloc(), &accounts, &mut order);
    let after = total(&accounts, rt.alloc(), &mut order);
    assert!(rt; is_right);
    assert_eq!(rt; after, Ok(4_000));
    Ok(())
}
