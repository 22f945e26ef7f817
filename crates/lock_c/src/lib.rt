//! The machines of `lock_one` and `lock_events` as a static library, for programs in C and Rust.
//!
//! The caller owns the word of a lock, of 32 bits, or of a condition variable, of 64 bits. It makes the step that a function
//! returns, and passes the answer to `lock_c_next` or `lock_c_next_event`. No function blocks, allocates or has a `requires`,
//! and none reads memory other than its arguments.
//!
//! A lock is for fewer than 2^27 readers. After a step that releases, only a wake-up is left, which uses no more than the
//! address of the word.
#![tactic(auto)]

ghost use Rattle.std.specs.Prelude.{◌≡◌};
ghost use Rattle.lock_one.specs.Machine.{acquiring, next_of, taking};
ghost use Rattle.lock_one.specs.Stored.{word_of_stored};
ghost use Rattle.lock_events.specs.Events.{action_of, event_next, notifying, waiting};
ghost use Rattle.lock_c.specs.Codes.{is_set};
ghost use Rattle.lock_c.specs.Packed.{asked_down, asked_want, packed, packed_event, step_of, step_of_event, unpacked, unpacked_event};

mod as_c;
mod codes;
mod laws;

use as_c::{packed, packed_event, step_of, step_of_event, unpacked, unpacked_event};
pub use codes::Code;
use codes::{down_of_number, want_of_number};
pub use laws::{packing_keeps_calls, packing_keeps_events, storing_keeps_steps};
use lock_events::EventCall;
use lock_one::{WordCall, from_stored};

/// A call between two of its steps, as in `lock_one::WordCall`. One thread has it at a time.
#[repr(C)]
#[derive(Drop)]
pub struct LockCall {
    pub readers: u64,
    pub loaded: u64,
    pub left: u64,
    pub stage: u32,
    pub want: u32,
    pub down: u32,
    pub pauses: u32,
    pub blocks: u8,
    pub announces: u8,
    pub announced: u8,
    pub late: u8,
    pub sleeps: u8,
    pub turned: u8,
}

/// A wait or a notification between two of its steps, as in `lock_events::EventCall`. One thread has it at a time.
#[repr(C)]
#[derive(Drop)]
pub struct LockEventCall {
    /// The word that the call found last. Its 24 high bits are how many waits are counted.
    pub loaded: u64,
    pub epoch: u64,
    pub stage: u32,
    pub lost: u32,
    pub all: u8,
    pub late: u8,
}

/// The next step, as in `lock_one::Action`.
#[repr(C)]
#[derive(Drop)]
pub struct LockStep {
    /// The number of a `Code`.
    pub action: u32,
    /// 0, for the word of the lock.
    pub place: u32,
    /// A word as the lock stores it, or how often to spin.
    pub first: u32,
    /// The word that an exchange leaves, or 1 if a sleep is brief.
    pub second: u32,
}

/// The next step on a condition variable, as in `lock_events::EventAction`.
#[repr(C)]
#[derive(Drop)]
pub struct LockEventStep {
    /// The number of a `Code`.
    pub action: u64,
    /// The word that an exchange compares with, or the epoch in which to sleep.
    pub first: u64,
    pub second: u64,
}

/// Begins a call that acquires, and returns its first step.
///
/// `want` is 0 for shared, 1 for exclusive, 2 for upgradable, and 3 for an upgrade. The call blocks unless `blocks` is 0. A
/// writer sets the bar before it sleeps, or finds one, unless `announces` is 0. If `readers` is 1, it first sleeps up to four times.
#[unsafe(no_mangle)]
pub extern "C" fn lock_c_4_acquire(
    call: &mut LockCall,
    readers: u32,
    want: u32,
    blocks: u8,
    announces: u8,
) -> LockStep
    ensures call { call.new ≡ packed (acquiring readers (asked_want want) (is_set blocks) (is_set announces)).0 }
    ensures step { result ≡ step_of (acquiring readers (asked_want want) (is_set blocks) (is_set announces)).1 }
{
    let (begun, action) = WordCall::acquire(
        u64::from(readers),
        want_of_number(want.min(3)),
        blocks != 0,
        announces != 0,
    );
    *call = packed(&begun);
    step_of(action)
}

/// Begins a call that releases or downgrades, and returns its first step.
///
/// `down` is 0 for a shared, 1 for an exclusive and 2 for an upgradable hold. It is 3 from exclusive to shared, 4 from
/// exclusive to upgradable, and 5 from upgradable to shared.
#[unsafe(no_mangle)]
pub extern "C" fn lock_c_4_release(call: &mut LockCall, readers: u32, down: u32) -> LockStep
    ensures call { call.new ≡ packed (taking readers (asked_down down)).0 }
    ensures step { result ≡ step_of (taking readers (asked_down down)).1 }
{
    let (begun, action) = WordCall::release(u64::from(readers), down_of_number(down.min(5)));
    *call = packed(&begun);
    step_of(action)
}

/// Takes the answer to the last step, and returns the next one.
///
/// The answer to a sleep is a stored word, too: 32 if the deadline of the call has passed, 64 if the time of a brief sleep is
/// over, and 0 otherwise.
#[unsafe(no_mangle)]
pub extern "C" fn lock_c_4_next(call: &mut LockCall, found: u32) -> LockStep
    ensures call { call.new ≡ packed (next_of (word_of_stored found) (unpacked call.old)).0 }
    ensures step { result ≡ step_of (next_of (word_of_stored found) (unpacked call.old)).1 }
{
    let mut going = unpacked(call);
    let action = going.next(from_stored(u64::from(found)));
    *call = packed(&going);
    step_of(action)
}

/// Begins a wait on a condition variable, and returns its first step. The caller holds the mutex.
///
/// The wait asks for the release of the mutex, and at its end for the acquisition.
#[unsafe(no_mangle)]
pub extern "C" fn lock_c_4_wait(call: &mut LockEventCall) -> LockEventStep
    ensures call { call.new ≡ packed_event waiting }
    ensures step { result ≡ step_of_event (action_of waiting) }
{
    let (begun, action) = EventCall::wait();
    *call = packed_event(&begun);
    step_of_event(action)
}

/// Begins a notification of all waits, or of one if `all` is 0, and returns its first step.
#[unsafe(no_mangle)]
pub extern "C" fn lock_c_4_notify(call: &mut LockEventCall, all: u8) -> LockEventStep
    ensures call { call.new ≡ packed_event (notifying (is_set all)) }
    ensures step { result ≡ step_of_event (action_of (notifying (is_set all))) }
{
    let (begun, action) = EventCall::notify(all != 0);
    *call = packed_event(&begun);
    step_of_event(action)
}

/// Takes the answer to the last step of a wait or a notification, and returns the next one.
#[unsafe(no_mangle)]
pub extern "C" fn lock_c_4_next_event(call: &mut LockEventCall, found: u64) -> LockEventStep
    ensures call { call.new ≡ packed_event (event_next found (unpacked_event call.old)) }
    ensures step { result ≡ step_of_event (action_of (event_next found (unpacked_event call.old))) }
{
    let mut going = unpacked_event(call);
    let action = going.next(found);
    *call = packed_event(&going);
    step_of_event(action)
}
