//! Every public type of a mutex under a rule, and of the semaphores, in a signature.
use lock_api::ruled::{
    AddsOne, ArcPermitGuard, Bound, Constant, Grows, Holder, InOrder, Items, Join, Lease, Ledger,
    Log, Looks, Measure, MutexRule, PermitGuard, PermitRule, PermitToken, PermitView, Permits,
    Pops, Pushes, ReadyRule, Roles, RuledGuard, RuledMutex, SameView, Semaphore, Settles, Share,
    SharedSemaphore, Shares, SlotRule, Split, Sums, Tally, User, UserStage, UserView, ViewUpdate,
};

/// A value of each type.
pub fn ruled<T: Drop, V, P: MutexRule<T, V>, M: ViewUpdate<T, V> + Split<V> + Join<V>>(
    _mutex: &RuledMutex<T, V, P>,
    _user: &User<T, V>,
    _guard: &RuledGuard<T, V>,
    _known: (&UserView<T, V>, &UserStage<T>),
    _rules: (&SlotRule<P>, &M),
) {}

/// A value of each type of the ready rules.
pub fn ready<T, V, X, P: ReadyRule<T, V>, M: Measure<T>, I: Items<T, X>>(
    _rules: (
        &P,
        &Ledger<M>,
        &Tally<M>,
        &Constant<M>,
        &Grows<M>,
        &InOrder<I>,
    ),
    _views: (&Share, &Log<X>),
    _updates: (&Settles<M>, &AddsOne, &SameView, &Bound<M>),
    _ends: (&Pushes<I>, &Pops<I>, &Looks),
    _splits: (&Shares, &Sums, &Roles),
) {}

/// A value of each type of a semaphore.
pub fn semaphores(_semaphore: &Semaphore, _users: (&Holder, &Lease), _measure: &Permits) {}

/// A value of each type of a semaphore that threads share.
pub fn shared_semaphores(
    _semaphore: &SharedSemaphore,
    _token: &PermitToken,
    _guards: (&PermitGuard<'_>, &ArcPermitGuard),
    _rule: (&PermitRule, &PermitView),
) {}
