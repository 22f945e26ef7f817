//! Every public type of the packed word, and of the locks on one, in a signature.
use lock_api::model::{
    Action, AtomicStep, Debt, Hold, LockStep, Outcome, PackedToken, PackedWord, Place, Places,
    SleepState, SleepView, Stage, WordCall, WordLimits, World, WorldParty,
};
use lock_api::raw::{
    Attempt, Begun, CountRule, Down, EventCount, ExWant, MonitorWake, NoTime, Notified, Occupancy,
    OneRule, OneView, Party, RealTime, Registered, SeatView, SeatedLock, SleepingCondvar,
    TimedCondvar, TimedRaw, Timing, WordCore, WordLock, WordRaw, WordRule, WordToken,
};
use std::clone::Clone;
use std::sync::Wait;
use std::time::Clock;

/// A value of each type of the raw locks on one word.
pub fn word_raws<W: Wait + Clone + Drop + Clock, T: Timing<W>>(
    _word_raw: &WordRaw<W>,
    _timed_raw: &TimedRaw<W>,
    _core: &WordCore<W, T>,
    _lock: &WordLock,
    _token: &WordToken,
    _wake: &MonitorWake,
    _times: (&NoTime, &RealTime),
    _condvars: (&SleepingCondvar<WordRaw<W>>, &TimedCondvar<W>),
) {}

/// A value of each type of the places of a table, the word, the world, the seated lock and the word lock.
pub fn words(
    _word: &PackedWord,
    _token: &PackedToken,
    _world: &World,
    _places: (&Places, &Place),
    _step: (&AtomicStep, &Outcome, &Down, &ExWant, &WorldParty),
    _hold: (&Hold, &LockStep, &Occupancy),
    _seated: (&SeatedLock, &Party, &SeatView, &WordRule, &Attempt),
    _seats: (&OneView, &OneRule),
    _machine: (&WordCall, &Action, &Stage),
    _sleeping: (&SleepView, &SleepState, &Debt, &WordLimits),
    _events: (&EventCount, &Registered, &Notified, &Begun, &CountRule),
) {}
