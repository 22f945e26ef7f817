//! Programs, locks and holds by number, and whether something is held.
ghost use Rattle.std.specs.Prelude.{◌≡◌, ◌==◌, [], map, not, nat_lt, option_map};
ghost use Rattle.std.proofs.Common.{get_or};
ghost use Rattle.std.specs.List.{list_all};
ghost use Rattle.std.specs.Option.{unwrap_or};
ghost use Rattle.lock_modes.specs.Holds.{no_hold};
ghost use Rattle.lock_modes.specs.Modes.{tokens};
ghost use Rattle.lock_plan.specs.Worlds.{no_lock};
ghost use Rattle.lock_plan_order.specs.LockOrders.{held_in};
ghost use Rattle.lock_plan_order.specs.WaitChecks.{holds_at};

use lock_modes::{Bag, Hold, Kind};
use lock_plan::{Holds, PlanLock, ProgramPlace};

/// Returns a program, or an empty one if there is none with this number.
pub(crate) fn program_of(programs: &[Vec<ProgramPlace>], number: usize) -> &[ProgramPlace]
    ensures { result.now ≡ get_or (map (λ v. v.items) programs.now) number [] }
{
    match programs.get(number) {
        Some(program) => program.as_slice(),
        None => &[],
    }
}

/// Returns what a party with a program holds at each place, or an empty list if there is no such program.
pub(crate) fn held_of(known: &[Vec<Option<Holds>>], number: usize) -> &[Option<Holds>]
    ensures { result.now ≡ get_or (map held_in known.now) number [] }
{
    match known.get(number) {
        Some(held) => held.as_slice(),
        None => &[],
    }
}

/// Returns what a party with a program holds at a place, if that is known.
pub(crate) fn holds_at(known: &[Vec<Option<Holds>>], program: usize, place: usize) -> Option<&Holds>
    ensures { unwrap_or (option_map (λ h. h.now) result) [] ≡ holds_at (map held_in known.now) program place }
{
    match held_of(known, program).get(place) {
        Some(Some(holds)) => Some(holds),
        _ => None,
    }
}

/// Returns a lock, or a mutex if there is none with this number.
pub(crate) fn lock_at(locks: &[PlanLock], lock: usize) -> PlanLock
    ensures { result ≡ get_or locks.now lock no_lock }
{
    match locks.get(lock) {
        Some(lock) => *lock,
        None => PlanLock {
            kind: Kind::Mutex,
            limit: 0,
            bar: false,
            fair: false,
        },
    }
}

/// Returns what is held of a lock, or nothing if the holds are not known.
pub(crate) fn bag_of(holds: Option<&Holds>, lock: usize) -> Bag
    ensures { result ≡ (get_or (unwrap_or (option_map (λ h. h.now) holds.entry) []) lock no_hold).bag }
{
    match holds {
        Some(holds) => holds.hold(lock).bag,
        None => Bag::empty(),
    }
}

/// Returns whether something is held.
pub(crate) fn is_held(bag: Bag) -> bool
    ensures { result ≡ nat_lt 0 (tokens bag) }
{
    bag.shared > 0 || bag.exclusive > 0 || bag.upgradable > 0
}

/// Returns whether nothing is held.
pub(crate) fn is_free(hold: Hold) -> bool
    ensures { result ≡ (tokens hold.bag == 0) }
{
    hold.bag.shared == 0 && hold.bag.exclusive == 0 && hold.bag.upgradable == 0
}

/// Returns whether a party with these holds holds nothing.
pub(crate) fn are_free(holds: &Holds) -> bool
    ensures { result ≡ list_all (λ h. tokens h.bag == 0) holds.now }
{
    holds.first_held().is_none()
}
