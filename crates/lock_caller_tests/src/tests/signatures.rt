//! Every public type of `lock_api`, in a signature.
mod ruled;
mod words;

use crate::tests::callers::{Limit, Settings};
use lock_api::guard::{
    ArcRwLockGuard, BorrowedMutex, Exclusive, FairMode, Guard, InMode, LockMode, Mappable, Mapped,
    RwLockGuard, Shared, ShowMode, Upgradable,
};
use lock_api::model::{
    Bag, Call, Desk, Form, Kind, LoopEnd, Mode, ModeStep, ObservableState, Op, RawState, Reply,
    Script, TableToken, TokenTable, Waits, Want, Way,
};
use lock_api::raw::{
    Arbiter, ExclusiveToken, Levels, LockCore, Monitor, RawLock, Recorded, RecordingArbiter,
    RecordingRaw, SharedToken, SpuriousCondvar, TableArbiter, TokenArbiter, TokenRaw, Unchanged,
    UpgradableToken,
};
use lock_api::{
    ArcMutexGuard, ArcReentrantMutexGuard, ArcRwLockReadGuard, ArcRwLockUpgradableReadGuard,
    ArcRwLockWriteGuard, At, Condvar, Fault, Field, GuardNoSend, GuardSend, MappedMutexGuard,
    MappedReentrantMutexGuard, MappedRwLockReadGuard, MappedRwLockWriteGuard, Missed, Mutex,
    MutexGuard, PartyId, Project, RawCondvar, RawCondvarTimed, RawMutex, RawMutexFair,
    RawMutexTimed, RawReentrantMutex, RawRwLock, RawRwLockDowngrade, RawRwLockFair, RawRwLockTimed,
    RawRwLockUpgrade, RawRwLockUpgradeDowngrade, RawRwLockUpgradeFair, RawRwLockUpgradeTimed,
    ReentrantMutex, ReentrantMutexGuard, RwLock, RwLockReadGuard, RwLockUpgradableReadGuard,
    RwLockWriteGuard, Then, TryProject, TryView, View, WaitTimeoutResult,
};
use std::clone::Clone;
use std::sync::Wait;

/// A value of each type of the machine and of the `Desk`.
pub fn machine<R: RawState, T, O: Op<T>>(
    _desk: &Desk<R, T>,
    _call: &Call<O>,
    _reply: &Reply<O::Answer>,
    _names: (Form, Kind, Mode, PartyId, Want, Way, Fault),
    _bag: Bag,
    _step: ModeStep,
) {}

/// A value of each type of the raw locks and raw states here.
pub fn raws<W: Wait + Clone + Drop, C: LockCore, A: Arbiter, S: ObservableState>(
    _token_raw: &TokenRaw<W>,
    _recording_raw: &RecordingRaw<W>,
    _recorded: &Recorded,
    _raw_lock: &RawLock<C>,
    _monitor: &Monitor<A, W>,
    _arbiters: (&TokenArbiter<S>, &RecordingArbiter<A>, &TableArbiter),
    _table: &TokenTable,
    _tokens: (
        &SharedToken<TableToken>,
        &ExclusiveToken<TableToken>,
        &UpgradableToken<TableToken>,
        &Unchanged<TableToken>,
    ),
    _marks: (&GuardSend, &GuardNoSend),
    _condvar: &SpuriousCondvar<TokenRaw<W>>,
) {}

/// A mutex, its guards, and its condition variables.
pub fn mutexes<R: RawMutex + Drop, C: RawCondvar<RawMutex = R>>(
    _mutex: &Mutex<R, Settings>,
    _guard: &MutexGuard<'_, R, Settings>,
    _same: &Guard<BorrowedMutex<'_, R, Settings>>,
    _mapped: &MappedMutexGuard<'_, R, Settings, At<Limit>>,
    _arc_guard: &ArcMutexGuard<R, Settings>,
    _condvar: &Condvar<C>,
    _ends: (WaitTimeoutResult, LoopEnd),
    _script: &Script<u64>,
) {}

/// A reader-writer lock and its guards.
pub fn rwlocks<R: RawRwLockUpgrade + Drop>(
    _lock: &RwLock<R, Settings>,
    _reader: &RwLockReadGuard<'_, R, Settings>,
    _writer: &RwLockWriteGuard<'_, R, Settings>,
    _upgradable: &RwLockUpgradableReadGuard<'_, R, Settings>,
    _same: &RwLockGuard<InMode<'_, Upgradable, R, Settings>>,
    _mapped_reader: &MappedRwLockReadGuard<'_, R, Settings, At<Limit>>,
    _mapped_writer: &MappedRwLockWriteGuard<'_, R, Settings, At<Limit>>,
    _modes: (Shared, Exclusive),
) {}

/// The guards of a reader-writer lock that own a reference to it.
pub fn rwlock_arcs<R: RawRwLockUpgrade + Drop>(
    _reader: &ArcRwLockReadGuard<R, Settings>,
    _writer: &ArcRwLockWriteGuard<R, Settings>,
    _upgradable: &ArcRwLockUpgradableReadGuard<R, Settings>,
    _same: &ArcRwLockGuard<Upgradable, R, Settings>,
) {}

/// A reentrant lock and its guards.
pub fn reentrant_mutexes<R: RawMutex + Drop>(
    _lock: &ReentrantMutex<R, Settings>,
    _raw: &RawReentrantMutex<R>,
    _levels: &Levels<R::Guard>,
    _guard: &ReentrantMutexGuard<'_, R, Settings>,
    _mapped: &MappedReentrantMutexGuard<'_, R, Settings, At<Limit>>,
    _same: &Mapped<ReentrantMutexGuard<'_, R, Settings>, At<Limit>>,
    _arc_guard: &ArcReentrantMutexGuard<R, Settings>,
) {}

/// Each trait of raw locks.
pub fn raw_traits<
    M: RawMutexFair + RawMutexTimed,
    L: RawRwLockUpgradeFair + RawRwLockUpgradeTimed + RawRwLockUpgradeDowngrade,
    D: RawRwLock + RawRwLockFair + RawRwLockTimed + RawRwLockDowngrade,
    C: RawCondvarTimed<RawMutex = M>,
>(_mutex: &M, _lock: &L, _same: &D, _condvar: &C) {}

/// Each trait of locks in a mode.
pub fn lock_traits<
    'a,
    R: RawRwLockUpgradeTimed + RawRwLockUpgradeFair + Drop,
    T: Drop,
    M: LockMode<R> + FairMode<R> + ShowMode<'a, R, T>,
    L: Mappable,
>(_mode: &M, _lock: &L, _value: &T, _raw: &R) {}

/// Each trait of parts, and of what waits.
pub fn part_traits<T, P: TryProject<T>, Q: Project<P::Part>, F: Field<T>, V: View<T>, W: Waits>(
    _then: &Then<P, Q>,
    _field: &At<F>,
    _view: &V,
    _missed: &Missed<P::Miss, Q::Miss>,
    _waits: &W,
) {}

/// A part that can be read.
pub fn part_of<'a, T, P: TryView<T>>(whole: &'a T, part: &'a P) -> Option<&'a P::Part> {
    part.get(whole)
}
