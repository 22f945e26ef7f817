//! A bank, each of whose accounts has a lock.
ghost use Rattle.std.specs.Prelude.{◌≡◌, ◌<◌, IsOkUnless};
ghost use Rattle.lock_api.specs.RankedRows.{places_of};

use lock_api::ranked::{AtRank, Order, Rank, RankedMutexRow};
use lock_api::{Fault, Mutex, RawMutex};
use std::alloc::Global;
use std::clone::Clone;

/// The rank of the accounts.
pub const ACCOUNTS: u64 = 30;

/// The accounts of a bank, each with its balance.
pub type Accounts<R> = RankedMutexRow<R, u64, AtRank<ACCOUNTS>>;

/// Opens so many accounts, each with this balance.
pub fn open<R: RawMutex + Drop>(
    alloc: Global,
    waiter: &R::Waiter,
    many: u64,
    balance: u64,
) -> Result<Accounts<R>, Fault>
    ensures { IsOkUnless result Fault.OutOfMemory }
{
    let mut mutexes = Vec::new(alloc);
    for _ in 0..many {
        mutexes.push(Mutex::new(alloc, waiter.clone()?, balance)?)?;
    }
    Ok(RankedMutexRow::from_mutexes(mutexes))
}

/// Moves `amount` between two accounts, and returns whether there was that much. It may be called under any lock below
/// the accounts.
pub fn transfer<R: RawMutex, B: Rank>(
    accounts: &Accounts<R>,
    order: &mut Order<'_, B>,
    from: usize,
    to: usize,
    amount: u64,
) -> bool
    requires order { B.rank < ACCOUNTS }
    requires from { from < places_of accounts.now }
    requires to { to < places_of accounts.now }
{
    if from == to {
        return true;
    }
    let (mut source, mut target, _above) = accounts.lock_two(order, from, to);
    match (source.checked_sub(amount), target.checked_add(amount)) {
        (Some(left), Some(sum)) => {
            *source = left;
            *target = sum;
            true
        }
        _ => false,
    }
}

/// Moves one unit between two accounts and back, `times` times. `lock_two` acquires both accounts in the order of their places,
/// so threads that do so in both directions do not wait for each other.
pub fn transfer_both_ways<R: RawMutex, B: Rank>(
    accounts: &Accounts<R>,
    order: &mut Order<'_, B>,
    from: usize,
    to: usize,
    times: u64,
)
    requires { B.rank < ACCOUNTS }
{
    if from >= accounts.len() || to >= accounts.len() {
        return;
    }
    for _ in 0..times {
        transfer(accounts, order, from, to, 1);
        transfer(accounts, order, to, from, 1);
    }
}

/// Returns what all accounts have together, at one moment.
pub fn total<R: RawMutex, B: Rank>(
    accounts: &Accounts<R>,
    alloc: Global,
    order: &mut Order<'_, B>,
) -> Result<u64, Fault>
    requires { B.rank < ACCOUNTS }
{
    let (guards, _above) = accounts.lock_all(alloc, order)?;
    let mut sum: u64 = 0;
    for guard in &guards {
        sum = sum.wrapping_add(**guard);
    }
    Ok(sum)
}
