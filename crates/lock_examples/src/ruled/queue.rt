//! A queue between one producer and one consumer.
ghost use Rattle.std.specs.Prelude.{◌≡◌, ◌++◌, [], ◌∷◌, vec_len, vec_capacity, IfOk};
ghost use Rattle.std.specs.Thread.{IsSync};
ghost use Rattle.lock_api.specs.InOrder.{producer, consumer};

use crate::ring::Ring;
use lock_api::Fault;
use lock_api::ruled::{InOrder, Items, Log, Pops, Pushes, Roles, RuledMutex, User};
use std::alloc::Global;
use std::sync::Wait;
use std::thread::{Threads, join};

/// The capacity of the queue.
const ROOM: usize = 4;

/// The items of a ring.
pub struct InRing;

impl<T> Items<Ring<T>, T> for InRing {
    ghost items = { λ ring. ring.items };
}

type Queue = RuledMutex<Ring<u32>, Log<u32>, InOrder<InRing>>;

type Client = User<Ring<u32>, Log<u32>>;

/// Pushes the item, blocking while there is no room.
fn push<R: Wait>(rt: &R, queue: &Queue, client: Client, item: u32) -> Client
    requires queue { client.mutex ≡ queue.now }
    requires role { client.view ≡ producer client.view.pushed }
    ensures { result ≡ record client { view = producer (client.view.pushed ++ item ∷ []) } }
{
    let mut ring = queue.lock_when(rt, client, |ring: &Ring<u32>| !ring.is_full());
    ring.push(item);
    queue.unlock_ready::<Pushes<InRing>>(ring)
}

/// Pops the oldest item, blocking while there is none.
fn pop<R: Wait>(rt: &R, queue: &Queue, client: Client) -> (Client, u32)
    requires queue { client.mutex ≡ queue.now }
    requires role { client.view ≡ consumer client.view.popped }
    ensures { result.0 ≡ record client { view = consumer (client.view.popped ++ result.1 ∷ []) } }
{
    let mut ring = queue.lock_when(rt, client, |ring: &Ring<u32>| !ring.is_empty());
    let item = ring.pop();
    (queue.unlock_ready::<Pops<InRing>>(ring), item)
}

/// Pushes all items.
fn push_all<R: Wait>(rt: &R, queue: &Queue, client: Client, all: &[u32]) -> Client
    requires queue { client.mutex ≡ queue.now }
    requires role { client.view ≡ producer [] }
    ensures { result ≡ record client { view = producer all.now } }
{
    let mut client = client;
    for item in all {
        client = push(rt, queue, client, *item);
    }
    client
}

/// Pops this many items.
fn pop_all<R: Wait>(
    rt: &R,
    queue: &Queue,
    client: Client,
    into: Vec<u32>,
    count: usize,
) -> (Client, Vec<u32>)
    requires queue { client.mutex ≡ queue.now }
    requires role { client.view ≡ consumer [] }
    requires into { (into.items ≡ []) × (vec_len into ≡ 0) × (vec_capacity into ≡ count) }
    ensures popped { result.0 ≡ record client { view = consumer result.1.items } }
    ensures count { vec_len result.1 ≡ count }
{
    let mut client = client;
    let mut into = into;
    for _ in 0..count {
        let (after, item) = pop(rt, queue, client);
        client = after;
        into.push_reserved(item);
    }
    (client, into)
}

/// Returns a copy of the items, which went through a queue from one thread to another.
pub fn relay<R: Threads + Wait + Sync>(
    rt: &R,
    alloc: Global,
    all: &[u32],
) -> Result<Vec<u32>, Fault>
    ensures { IfOk result (λ copy. copy.items ≡ all.now) }
{
    let into = Vec::with_capacity(alloc, all.len())?;
    let count = all.len();
    let (made, client) = Queue::new(alloc, Ring::with_places(alloc, ROOM)?)?;
    let queue = &made;
    let (pushing, popping) = queue.split_ready::<Roles>(client);
    let (pushing, (popping, copy)) = join(
        rt,
        move || -> Client
            requires { IsSync R.row × (pushing.mutex ≡ queue.now) × (pushing.view ≡ producer []) }
            ensures { result ≡ record pushing { view = producer all.entry.now } }
        { push_all(rt, queue, pushing, all) },
        move || -> (Client, Vec<u32>)
            requires user { IsSync R.row × (popping.mutex ≡ queue.now) × (popping.view ≡ consumer []) }
            requires room { (into.items ≡ []) × (vec_len into ≡ 0) × (vec_capacity into ≡ count) }
            ensures { (result.0 ≡ record popping { view = consumer result.1.items }) × (vec_len result.1 ≡ count) }
        { pop_all(rt, queue, popping, into, count) },
    );
    let client = queue.join_ready::<Roles>(pushing, popping);
    drop(made.into_inner_ready(client));
    Ok(copy)
}
