//! A guard of a reader-writer lock in any mode.
use crate::driven::{After, ScriptGuard};
use lock_machine::{Call, Form, Reply, Want, Way};
use lock_modes::Fault;
use lock_script::PairOp;

/// A reader-writer lock over a pair, with a type of guards for each mode.
pub trait RwDriven {
    type Reader: ScriptGuard;

    type Writer: ScriptGuard;

    type Upgradable: ScriptGuard;

    /// Acquires the lock shared.
    ///
    /// # Errors
    ///
    /// `OutOfMemory` if memory is refused, and `WouldWait` if the lock refuses.
    fn read(&self, form: Form) -> Result<Self::Reader, Fault>;

    /// Acquires the lock exclusively. The errors are those of `read`.
    fn write(&self, form: Form) -> Result<Self::Writer, Fault>;

    /// Acquires the lock upgradable. The errors are those of `read`.
    fn upgradable_read(&self, form: Form) -> Result<Self::Upgradable, Fault>;

    /// Applies the operation to the pair.
    fn change(writer: Self::Writer, operation: PairOp) -> (Self::Writer, Reply<i64>);

    fn downgrade(writer: Self::Writer) -> Self::Reader;

    fn downgrade_to_upgradable(writer: Self::Writer) -> Self::Upgradable;

    fn downgrade_upgradable(guard: Self::Upgradable) -> Self::Reader;

    /// Upgrades the guard, or returns it if the lock refuses.
    fn upgrade(guard: Self::Upgradable, form: Form) -> Result<Self::Writer, Self::Upgradable>;

    /// Upgrades the guard, applies the operation to the pair, and downgrades the guard. The reply is `NoGuard` if the lock
    /// refuses.
    fn with_upgraded(
        guard: Self::Upgradable,
        form: Form,
        operation: PairOp,
    ) -> (Self::Upgradable, Reply<i64>);
}

/// A guard of one of three types.
#[derive(Drop)]
pub enum RwGuard<A, B, C> {
    Reader(A),
    Writer(B),
    Upgradable(C),
}

/// The guard of a lock in any mode.
pub type AnyGuard<L> = RwGuard<
    <L as RwDriven>::Reader,
    <L as RwDriven>::Writer,
    <L as RwDriven>::Upgradable,
>;

/// Acquires the lock in the mode.
///
/// # Errors
///
/// `WrongKind` if the mode is that of a mutex, and then those of `RwDriven::read`.
pub(crate) fn acquire_in<L: RwDriven>(
    lock: &L,
    want: Want,
    form: Form,
) -> Result<AnyGuard<L>, Fault> {
    match want {
        Want::Lock => Err(Fault::WrongKind),
        Want::Read => Ok(RwGuard::Reader(lock.read(form)?)),
        Want::Write => Ok(RwGuard::Writer(lock.write(form)?)),
        Want::UpgradableRead => Ok(RwGuard::Upgradable(lock.upgradable_read(form)?)),
    }
}

impl<A: ScriptGuard, B: ScriptGuard, C: ScriptGuard> ScriptGuard for RwGuard<A, B, C> {
    fn release(self, way: Way) {
        match self {
            RwGuard::Reader(guard) => guard.release(way),
            RwGuard::Writer(guard) => guard.release(way),
            RwGuard::Upgradable(guard) => guard.release(way),
        }
    }

    fn bumped(self) -> RwGuard<A, B, C> {
        match self {
            RwGuard::Reader(guard) => RwGuard::Reader(guard.bumped()),
            RwGuard::Writer(guard) => RwGuard::Writer(guard.bumped()),
            RwGuard::Upgradable(guard) => RwGuard::Upgradable(guard.bumped()),
        }
    }

    fn asked(&self, operation: PairOp) -> Reply<i64> {
        match self {
            RwGuard::Reader(guard) => guard.asked(operation),
            RwGuard::Writer(guard) => guard.asked(operation),
            RwGuard::Upgradable(guard) => guard.asked(operation),
        }
    }

    fn unlocked<U, F: FnOnce() -> U>(self, way: Way, f: F) -> After<RwGuard<A, B, C>, U> {
        match self {
            RwGuard::Reader(guard) => {
                let (guard, answer) = guard.unlocked(way, f);
                match guard {
                    Some(guard) => (Some(RwGuard::Reader(guard)), answer),
                    None => (None, answer),
                }
            }
            RwGuard::Writer(guard) => {
                let (guard, answer) = guard.unlocked(way, f);
                match guard {
                    Some(guard) => (Some(RwGuard::Writer(guard)), answer),
                    None => (None, answer),
                }
            }
            RwGuard::Upgradable(guard) => {
                let (guard, answer) = guard.unlocked(way, f);
                match guard {
                    Some(guard) => (Some(RwGuard::Upgradable(guard)), answer),
                    None => (None, answer),
                }
            }
        }
    }
}

/// Makes a call that changes the value or the mode. The reply is `NoGuard` if the lock refuses it, and `WrongKind` if the
/// guard has no such call.
pub(crate) fn change_in_mode<L: RwDriven>(
    guard: AnyGuard<L>,
    call: Call<PairOp>,
) -> After<AnyGuard<L>, Reply<i64>> {
    match (call, guard) {
        (Call::Change(_, _, operation), RwGuard::Writer(guard)) => {
            let (guard, reply) = L::change(guard, operation);
            (Some(RwGuard::Writer(guard)), reply)
        }
        (Call::Upgrade(form, _, _), RwGuard::Upgradable(guard)) => {
            match L::upgrade(guard, form) {
                Ok(guard) => (Some(RwGuard::Writer(guard)), Reply::Done),
                Err(guard) => (Some(RwGuard::Upgradable(guard)), Reply::NoGuard),
            }
        }
        (Call::WithUpgraded(form, _, _, operation), RwGuard::Upgradable(guard)) => {
            let (guard, reply) = L::with_upgraded(guard, form, operation);
            (Some(RwGuard::Upgradable(guard)), reply)
        }
        (Call::Downgrade(_, _), RwGuard::Writer(guard)) => {
            (Some(RwGuard::Reader(L::downgrade(guard))), Reply::Done)
        }
        (Call::Downgrade(_, _), RwGuard::Upgradable(guard)) => {
            (
                Some(RwGuard::Reader(L::downgrade_upgradable(guard))),
                Reply::Done,
            )
        }
        (Call::DowngradeToUpgradable(_, _), RwGuard::Writer(guard)) => {
            let guard = L::downgrade_to_upgradable(guard);
            (Some(RwGuard::Upgradable(guard)), Reply::Done)
        }
        (_, guard) => (Some(guard), Reply::Refused(Fault::WrongKind)),
    }
}
