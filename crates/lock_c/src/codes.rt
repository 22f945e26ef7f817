//! The numbers that C and the machines have for the same things.
ghost use Rattle.std.specs.Prelude.{◌≡◌};
ghost use Rattle.lock_c.specs.Codes.{bit, down_of, event_stage_of, number_of_code, number_of_down, number_of_event_stage, number_of_stage, number_of_want, stage_of, want_of};

use lock_events::EventStage;
use lock_one::Stage;
use lock_word::{Down, ExWant};

/// The kind of a step. The numbers count from 0, as in C.
#[derive(Clone, Copy, PartialEq, Eq, Debug)]
pub enum Code {
    Load,
    Exchange,
    Subtract,
    Or,
    Sleep,
    SleepNext,
    WakeOne,
    WakeAll,
    WakeNext,
    Spin,
    Yield,
    Refused,
    Done,
    Unlock,
    Lock,
    SleepReader,
    WakeTurn,
}

pub(crate) fn number_of_code(code: Code) -> u32
    ensures { result ≡ number_of_code code }
{
    match code {
        Code::Load => 0,
        Code::Exchange => 1,
        Code::Subtract => 2,
        Code::Or => 3,
        Code::Sleep => 4,
        Code::SleepNext => 5,
        Code::WakeOne => 6,
        Code::WakeAll => 7,
        Code::WakeNext => 8,
        Code::Spin => 9,
        Code::Yield => 10,
        Code::Refused => 11,
        Code::Done => 12,
        Code::Unlock => 13,
        Code::Lock => 14,
        Code::SleepReader => 15,
        Code::WakeTurn => 16,
    }
}

pub(crate) fn number_of_want(want: ExWant) -> u32
    ensures { result ≡ number_of_want want }
{
    match want {
        ExWant::Shared => 0,
        ExWant::Exclusive => 1,
        ExWant::Upgradable => 2,
        ExWant::Upgrade => 3,
        ExWant::Announce => 4,
    }
}

pub(crate) fn want_of_number(number: u32) -> ExWant
    ensures { result ≡ want_of number }
{
    match number {
        0 => ExWant::Shared,
        1 => ExWant::Exclusive,
        2 => ExWant::Upgradable,
        3 => ExWant::Upgrade,
        _ => ExWant::Announce,
    }
}

pub(crate) fn number_of_down(down: Down) -> u32
    ensures { result ≡ number_of_down down }
{
    match down {
        Down::Shared => 0,
        Down::Exclusive => 1,
        Down::Upgradable => 2,
        Down::ToShared => 3,
        Down::ToUpgradable => 4,
        Down::UpgradableToShared => 5,
        Down::Withdraw => 6,
    }
}

pub(crate) fn down_of_number(number: u32) -> Down
    ensures { result ≡ down_of number }
{
    match number {
        0 => Down::Shared,
        1 => Down::Exclusive,
        2 => Down::Upgradable,
        3 => Down::ToShared,
        4 => Down::ToUpgradable,
        5 => Down::UpgradableToShared,
        _ => Down::Withdraw,
    }
}

pub(crate) fn bit(answer: bool) -> u8
    ensures { result ≡ bit answer }
{
    if answer { 1 } else { 0 }
}

pub(crate) fn number_of_stage(stage: Stage) -> u32
    ensures { result ≡ number_of_stage stage }
{
    match stage {
        Stage::Look => 0,
        Stage::Try => 1,
        Stage::Pause => 2,
        Stage::Mark => 3,
        Stage::Sleep => 4,
        Stage::Withdraw => 5,
        Stage::Leave => 6,
        Stage::LookToRemove => 7,
        Stage::Subtract => 8,
        Stage::Release => 9,
        Stage::Wake => 10,
        Stage::WakeRefused => 11,
        Stage::Acquired => 12,
        Stage::Refused => 13,
        Stage::Ended => 14,
        Stage::WakeAcquired => 15,
    }
}

pub(crate) fn stage_of_number(number: u32) -> Stage
    ensures { result ≡ stage_of number }
{
    match number {
        0 => Stage::Look,
        1 => Stage::Try,
        2 => Stage::Pause,
        3 => Stage::Mark,
        4 => Stage::Sleep,
        5 => Stage::Withdraw,
        6 => Stage::Leave,
        7 => Stage::LookToRemove,
        8 => Stage::Subtract,
        9 => Stage::Release,
        10 => Stage::Wake,
        11 => Stage::WakeRefused,
        12 => Stage::Acquired,
        13 => Stage::Refused,
        14 => Stage::Ended,
        _ => Stage::WakeAcquired,
    }
}

pub(crate) fn number_of_event_stage(stage: EventStage) -> u32
    ensures { result ≡ number_of_event_stage stage }
{
    match stage {
        EventStage::Look => 0,
        EventStage::CountIn => 1,
        EventStage::Unlock => 2,
        EventStage::Sleep => 3,
        EventStage::Leave => 4,
        EventStage::UnlockAway => 5,
        EventStage::YieldAway => 6,
        EventStage::Lock => 7,
        EventStage::Waited => 8,
        EventStage::FindWaits => 9,
        EventStage::EndEpoch => 10,
        EventStage::EndAllEpochs => 11,
        EventStage::Wake => 12,
        EventStage::Notified => 13,
        EventStage::Skipped => 14,
    }
}

pub(crate) fn event_stage_of_number(number: u32) -> EventStage
    ensures { result ≡ event_stage_of number }
{
    match number {
        0 => EventStage::Look,
        1 => EventStage::CountIn,
        2 => EventStage::Unlock,
        3 => EventStage::Sleep,
        4 => EventStage::Leave,
        5 => EventStage::UnlockAway,
        6 => EventStage::YieldAway,
        7 => EventStage::Lock,
        8 => EventStage::Waited,
        9 => EventStage::FindWaits,
        10 => EventStage::EndEpoch,
        11 => EventStage::EndAllEpochs,
        12 => EventStage::Wake,
        13 => EventStage::Notified,
        _ => EventStage::Skipped,
    }
}
