//! Parties that end while they hold a lock.

use lock_plan::Plan;
use plan_text::NamedPlan;
use std::alloc::Global;

/// Returns a warning of the first party that ends while it holds a lock, if there is one, and memory for it.
pub(crate) fn ending_warning(alloc: Global, named: &NamedPlan) -> Option<String> {
    for party in 0..named.plan.parties() {
        if let Some(lock) = held_at_end(alloc, &named.plan, party) {
            return warning(alloc, named, party, lock);
        }
    }
    None
}

/// Returns the first lock that a party holds at its end, if a way leads there.
fn held_at_end(alloc: Global, plan: &Plan, party: usize) -> Option<usize> {
    if party >= plan.parties() {
        return None;
    }
    let known = plan.known_holds(alloc, party).ok()?;
    match known.as_slice().last() {
        Some(Some(holds)) => holds.first_held(),
        _ => None,
    }
}

/// Makes the warning that a party ends while it holds a lock.
fn warning(alloc: Global, named: &NamedPlan, party: usize, lock: usize) -> Option<String> {
    let party = named.names.party(party);
    let lock = named.names.lock(lock);
    format!(in alloc; "warning: '{party}' ends and holds '{lock}'").ok()
}
