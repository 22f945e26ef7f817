//! Which locks may refuse any mode next to any hold.
ghost use Rattle.std.specs.Prelude.{◌≡◌, false, map, not, IfOk, IfSome, IsTrue};
ghost use Rattle.std.proofs.Common.{get_or};
ghost use Rattle.lock_plan_order.specs.LockOrders.{AreStrict, HasRoom, IsLenientAmong, held_in, most_reads, reads_in};

use crate::lookups::lock_at;
use lock_plan::{Holds, PlanLock};
use std::alloc::{AllocError, Global};
use step_search::Budget;

/// Returns for each lock whether it may refuse any mode next to any hold: by its line, its bar, or the number of its readers.
/// Once the budget has ended, it may.
pub(crate) fn strict_locks<B: Budget>(
    alloc: Global,
    locks: &[PlanLock],
    many: &[bool],
    known: &[Vec<Option<Holds>>],
    budget: &mut B,
) -> Result<Vec<bool>, AllocError>
    ensures { IfOk result (λ strict. AreStrict locks.now many.now (map held_in known.now) strict.items) }
{
    let mut strict = Vec::with_capacity(alloc, locks.len())?;
    for number in 0..locks.len() {
        let lock = lock_at(locks, number);
        strict.push(!is_lenient_in_time(lock, number, many, known, budget))?;
    }
    Ok(strict)
}

/// `is_lenient` until the budget ends.
fn is_lenient_in_time<B: Budget>(
    lock: PlanLock,
    number: usize,
    many: &[bool],
    known: &[Vec<Option<Holds>>],
    budget: &mut B,
) -> bool
    ensures { IsTrue result → IsLenientAmong lock many.now (map held_in known.now) number }
{
    budget.lasts(number) && is_lenient(lock, number, many, known)
}

/// Returns whether a lock has neither a line nor a bar, and all parties together never have as many reads as its limit.
fn is_lenient(lock: PlanLock, number: usize, many: &[bool], known: &[Vec<Option<Holds>>]) -> bool
    ensures { IsTrue result → IsLenientAmong lock many.now (map held_in known.now) number }
{
    if lock.fair || lock.bar || lock.limit == 0 {
        return false;
    }
    has_room(number, many, known, lock.limit - 1)
}

/// Returns whether all parties together have at most so many reads of a lock.
fn has_room(lock: usize, many: &[bool], known: &[Vec<Option<Holds>>], room: u64) -> bool
    ensures { IsTrue result → HasRoom many.now (map held_in known.now) lock room }
{
    let mut left = room;
    let mut rest = known;
    let mut program = 0usize;
    while let Some((held, after)) = rest.split_first() {
        let Some(most) = most_reads(held.as_slice(), lock) else {
            return false;
        };
        if most > left || (most > 0) & is_many(many, program) {
            return false;
        }
        left -= most;
        rest = after;
        program += 1;
    }
    true
}

/// Returns whether any number of parties run a program.
fn is_many(many: &[bool], program: usize) -> bool
    ensures { result ≡ get_or many.now program false }
{
    many.get(program).copied().unwrap_or(false)
}

/// Returns the most reads of a lock that a party with a program has at a place, or `None` where a number does not count them.
fn most_reads(held: &[Option<Holds>], lock: usize) -> Option<u64>
    ensures { IfSome result (λ most. most ≡ most_reads lock held.now) }
{
    let mut most = 0u64;
    let mut rest = held;
    while let Some((here, after)) = rest.split_first() {
        most = most.max(reads(here, lock)?);
        rest = after;
    }
    Some(most)
}

/// Returns how many reads of a lock a party has with these holds, if they are known.
fn reads(here: &Option<Holds>, lock: usize) -> Option<u64>
    ensures { IfSome result (λ reads. reads ≡ reads_in lock here.now) }
{
    match here {
        None => Some(0),
        Some(holds) => {
            let bag = holds.hold(lock).bag;
            bag.shared.checked_add(bag.upgradable)
        }
    }
}
