//! What the rules of the tables mean. Each law is the contract of a function with an empty body.
ghost use Rattle.lock_ruled.specs.Slots.{EveryStateIsRuled, EveryStateForgetsNoUser};
ghost use Rattle.lock_ruled.specs.Accounts.{EveryStateAccounts};

use crate::rule::{MutexRule, SlotRule, UserView};
use crate::shared_semaphore::{PermitRule, PermitView};
use atomic_table::TableRule;

/// Between any two steps of any threads, the mutex's rule holds of one value and the views of all users with a part. That
/// value lies in the slot while the mutex is free. Otherwise it is the value that the one holder acquired.
pub fn every_state_is_ruled<T, V, P: MutexRule<T, V>>()
    ensures { EveryStateIsRuled P.rule ⟦<SlotRule<P> as TableRule<Option<T>, UserView<T, V>, T>>⟧.holds }
{}

/// Between any two steps of any threads, no sleeping user is forgotten. If a user sleeps, the mutex is held and its
/// release will find it awaited, or some user is due: it is in the middle of a release, and has yet to end the epoch for
/// which the user sleeps. So no user sleeps while the mutex is free and no call is in progress.
pub fn every_state_forgets_no_user<T, V, P: MutexRule<T, V>>()
    ensures { EveryStateForgetsNoUser ⟦<SlotRule<P> as TableRule<Option<T>, UserView<T, V>, T>>⟧.holds }
{}

/// Between any two steps of any threads, the permits of a `SharedSemaphore` that are free and those of all tokens are all
/// permits.
pub fn every_state_accounts_for_permits()
    ensures { EveryStateAccounts ⟦<PermitRule as TableRule<(), PermitView, u64>>⟧.holds }
{}
