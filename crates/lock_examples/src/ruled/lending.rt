//! A pool whose objects threads borrow: none is lost, and none is lent twice.
ghost use Rattle.std.specs.Prelude.{◌≡◌, ◌+◌, ◌≤◌, IfOk, sum_by};
ghost use Rattle.std.specs.Thread.{IsSync};
ghost use Rattle.lock_api.specs.Permits.{with_more, with_fewer};

use crate::ring::Ring;
use lock_api::Fault;
use lock_api::ruled::{Ledger, Measure, RuledMutex, Settles, Share, Shares, User};
use std::alloc::Global;
use std::marker::PhantomData;
use std::sync::Wait;
use std::thread::{Threads, join};

/// A number for each object, in contracts only. Let one object weigh 1 and all others 0: then the contracts here say that
/// this object is neither lost nor lent twice. They are proved for every such choice.
pub trait Weight<T> {
    ghost use Rattle.std.specs.Prelude.{ℕ};

    ghost weight: { T → ℕ };
}

/// The measure of a pool: the weight of the objects in it.
pub struct Weighed<W> {
    weight: PhantomData<W>,
}

impl<T, W: Weight<T>> Measure<Ring<T>> for Weighed<W> {
    ghost use Rattle.std.specs.Prelude.{sum_by};

    ghost measure = { λ ring. sum_by W.weight ring.items };
}

/// A pool. The objects in it, and those that its users have borrowed, weigh as much as all objects.
pub type Lending<T, W> = RuledMutex<Ring<T>, Share, Ledger<Weighed<W>>>;

/// A user of a pool. Its share is the weight of what it has borrowed.
pub type Borrower<T> = User<Ring<T>, Share>;

/// Borrows an object, blocking until there is one.
pub fn borrow<R: Wait, T: Drop, W: Weight<T>>(
    rt: &R,
    pool: &Lending<T, W>,
    user: Borrower<T>,
) -> (Borrower<T>, T)
    requires { user.mutex ≡ pool.now }
    ensures { result.0 ≡ with_more user (W.weight result.1) }
{
    let mut free = pool.lock_when(rt, user, |free: &Ring<T>| !free.is_empty());
    let object = free.pop();
    (pool.unlock_ready::<Settles<Weighed<W>>>(free), object)
}

/// Gives a borrowed object back.
pub fn give_back<R: Wait, T: Drop, W: Weight<T>>(
    rt: &R,
    pool: &Lending<T, W>,
    user: Borrower<T>,
    object: T,
) -> Borrower<T>
    requires pool { user.mutex ≡ pool.now }
    requires borrowed { W.weight object ≤ user.view.own }
    ensures { result ≡ with_fewer user (W.weight object) }
{
    let mut free = pool.lock_when(rt, user, |free: &Ring<T>| !free.is_full());
    free.push(object);
    pool.unlock_ready::<Settles<Weighed<W>>>(free)
}

/// Joins two users. What they have borrowed weighs at most what all objects weigh.
pub fn join_borrowers<R: Wait, T: Drop, W: Weight<T>>(
    rt: &R,
    pool: &Lending<T, W>,
    user: Borrower<T>,
    other: Borrower<T>,
) -> Borrower<T>
    requires pool { (user.mutex ≡ pool.now) × (other.mutex ≡ pool.now) }
    ensures joined { result ≡ record (with_more user other.view.own) { parts = user.parts + other.parts } }
    ensures lent_once { user.view.own + other.view.own ≤ user.view.all }
{
    let free = pool.lock(rt, pool.join_ready::<Shares>(user, other));
    pool.known(&free);
    pool.unlock_ready::<Settles<Weighed<W>>>(free)
}

/// Borrows an object and gives it back, this many times.
fn borrow_in_turns<R: Wait, T: Drop, W: Weight<T>>(
    rt: &R,
    pool: &Lending<T, W>,
    user: Borrower<T>,
    turns: u64,
) -> Borrower<T>
    requires { user.mutex ≡ pool.now }
    ensures { result ≡ user }
{
    let mut user = user;
    for _ in 0..turns {
        let (borrower, object) = borrow(rt, pool, user);
        user = give_back(rt, pool, borrower, object);
    }
    user
}

/// Each object weighs 1.
pub struct One;

impl<T> Weight<T> for One {
    ghost weight = { λ object. 1 };
}

/// Returns the objects after two threads have borrowed them in turns. By each weight they weigh what they weighed before, so
/// none is lost, and none came twice.
pub fn lend_in_turns<R: Threads + Wait + Sync, W: Weight<u64> + Sync>(
    rt: &R,
    alloc: Global,
    objects: Ring<u64>,
    turns: u64,
) -> Result<Ring<u64>, Fault>
    ensures { IfOk result (λ after. sum_by W.weight after.items ≡ sum_by W.weight objects.items) }
{
    let (made, user): (Lending<u64, W>, Borrower<u64>) = RuledMutex::new(alloc, objects)?;
    let pool = &made;
    let (user, other) = pool.split_ready::<Shares>(user);
    let (user, other) = join(
        rt,
        move || -> Borrower<u64>
            requires { IsSync R.row × IsSync W.row × (user.mutex ≡ pool.now) }
            ensures { result ≡ user }
        { borrow_in_turns(rt, pool, user, turns) },
        move || -> Borrower<u64>
            requires { IsSync R.row × IsSync W.row × (other.mutex ≡ pool.now) }
            ensures { result ≡ other }
        { borrow_in_turns(rt, pool, other, turns) },
    );
    let user = join_borrowers(rt, pool, user, other);
    Ok(made.into_inner_ready(user))
}
