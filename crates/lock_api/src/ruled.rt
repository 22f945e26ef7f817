//! A mutex whose value obeys a rule that its users know, ready rules, and semaphores.

pub use lock_ruled::{
    AddsOne, ArcPermitGuard, Bound, Constant, Grows, Holder, InOrder, Items, Join, Lease, Ledger,
    Log, Looks, Measure, MutexRule, PermitGuard, PermitRule, PermitToken, PermitView, Permits,
    Pops, Pushes, ReadyRule, Roles, RuledGuard, RuledMutex, SameView, Semaphore, Settles, Share,
    SharedSemaphore, Shares, SlotRule, Split, Sums, Tally, User, UserStage, UserView, ViewUpdate,
};
