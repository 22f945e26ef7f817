//! Calls and steps as C has them.
ghost use Rattle.std.specs.Prelude.{◌≡◌, ◌^◌};
ghost use Rattle.lock_one.specs.Stored.{stored_amount};
ghost use Rattle.lock_c.specs.Packed.{code_of, event_step, half_of, packed, packed_event, step, step_of, step_of_event, unpacked, unpacked_event};

use crate::codes::{
    Code, bit, down_of_number, event_stage_of_number, number_of_code, number_of_down,
    number_of_event_stage, number_of_stage, number_of_want, stage_of_number, want_of_number,
};
use crate::{LockCall, LockEventCall, LockEventStep, LockStep};
use lock_events::{EventAction, EventCall};
use lock_one::{Action, Sleeper, WordCall, stored_amount, to_stored};
use lock_word::Down;

pub(crate) fn packed(call: &WordCall) -> LockCall
    ensures { result ≡ packed call.now }
{
    LockCall {
        readers: call.readers,
        loaded: call.loaded,
        left: call.left,
        stage: number_of_stage(call.stage),
        want: number_of_want(call.want),
        down: number_of_down(call.down),
        pauses: call.pauses,
        blocks: bit(call.blocks),
        announces: bit(call.announces),
        announced: bit(call.announced),
        late: bit(call.late),
        sleeps: call.sleeps,
        turned: bit(call.turned),
    }
}

pub(crate) fn unpacked(call: &LockCall) -> WordCall
    ensures { result ≡ unpacked call.now }
{
    WordCall {
        readers: call.readers,
        stage: stage_of_number(call.stage),
        want: want_of_number(call.want),
        down: down_of_number(call.down),
        blocks: call.blocks != 0,
        announces: call.announces != 0,
        announced: call.announced != 0,
        turned: call.turned != 0,
        late: call.late != 0,
        sleeps: call.sleeps,
        pauses: call.pauses,
        loaded: call.loaded,
        left: call.left,
    }
}

pub(crate) fn packed_event(call: &EventCall) -> LockEventCall
    ensures { result ≡ packed_event call.now }
{
    LockEventCall {
        loaded: call.loaded,
        epoch: call.epoch,
        stage: number_of_event_stage(call.stage),
        lost: call.lost,
        all: bit(call.all),
        late: bit(call.late),
    }
}

pub(crate) fn unpacked_event(call: &LockEventCall) -> EventCall
    ensures { result ≡ unpacked_event call.now }
{
    EventCall {
        stage: event_stage_of_number(call.stage),
        all: call.all != 0,
        late: call.late != 0,
        lost: call.lost,
        loaded: call.loaded,
        epoch: call.epoch,
    }
}

fn step(kind: Code, place: u32, first: u32, second: u32) -> LockStep
    ensures { result ≡ step kind place first second }
{
    LockStep {
        action: number_of_code(kind),
        place,
        first,
        second,
    }
}

/// How many numbers a word of 32 bits has.
const HALF: u64 = 4_294_967_296;

/// Returns the number that a lock of 32 bits stores for the word.
fn half_of(word: u64) -> u32
    ensures { result ≡ half_of word }
{
    (to_stored(word) % HALF) as u32
}

/// Returns what a release subtracts from the number of 32 bits, which wraps.
fn half_amount(down: Down) -> u32
    ensures { result ≡ stored_amount (2 ^ 32) down }
{
    (stored_amount(down) % HALF) as u32
}

/// Returns the step of a sleeper of this class.
fn code_of(class: Sleeper) -> Code
    ensures { result ≡ code_of class }
{
    match class {
        Sleeper::Next => Code::SleepNext,
        Sleeper::Reader => Code::SleepReader,
        Sleeper::Other => Code::Sleep,
    }
}

pub(crate) fn step_of(next: Action) -> LockStep
    ensures { result ≡ step_of next }
{
    match next {
        Action::Load => step(Code::Load, 0, 0, 0),
        Action::Exchange(first, second) => {
            step(Code::Exchange, 0, half_of(first), half_of(second))
        }
        Action::Subtract(down) => step(Code::Subtract, 0, half_amount(down), 0),
        Action::Sleep(word, class, is_brief) => {
            step(code_of(class), 0, half_of(word), u32::from(is_brief))
        }
        Action::WakeOne => step(Code::WakeOne, 0, 0, 0),
        Action::WakeAll => step(Code::WakeAll, 0, 0, 0),
        Action::WakeNext => step(Code::WakeNext, 0, 0, 0),
        Action::WakeTurn => step(Code::WakeTurn, 0, 0, 0),
        Action::Spin(times) => step(Code::Spin, 0, times, 0),
        Action::Yield => step(Code::Yield, 0, 0, 0),
        Action::End(false) => step(Code::Refused, 0, 0, 0),
        Action::End(true) => step(Code::Done, 0, 0, 0),
    }
}

fn event_step(kind: Code, first: u64, second: u64) -> LockEventStep
    ensures { result ≡ event_step kind first second }
{
    LockEventStep {
        action: u64::from(number_of_code(kind)),
        first,
        second,
    }
}

pub(crate) fn step_of_event(next: EventAction) -> LockEventStep
    ensures { result ≡ step_of_event next }
{
    match next {
        EventAction::Load => event_step(Code::Load, 0, 0),
        EventAction::Exchange(first, second) => event_step(Code::Exchange, first, second),
        EventAction::Subtract(first) => event_step(Code::Subtract, first, 0),
        EventAction::Or(first) => event_step(Code::Or, first, 0),
        EventAction::Park(epoch) => event_step(Code::Sleep, epoch, 0),
        EventAction::WakeOne => event_step(Code::WakeOne, 0, 0),
        EventAction::WakeAll => event_step(Code::WakeAll, 0, 0),
        EventAction::Yield => event_step(Code::Yield, 0, 0),
        EventAction::Unlock => event_step(Code::Unlock, 0, 0),
        EventAction::Lock => event_step(Code::Lock, 0, 0),
        EventAction::End(false) => event_step(Code::Refused, 0, 0),
        EventAction::End(true) => event_step(Code::Done, 0, 0),
    }
}
