//! A writer and a reader on threads, over one atomic word.
ghost use Rattle.std.specs.Prelude.{◌≡◌, ◌+◌, ◌%◌, ◌<◌, ◌^◌, ◌⊎◌, IfOk};
ghost use Rattle.lock_api.specs.Holds.{no_hold};

use lock_api::Fault;
use lock_api::model::Mode;
use lock_api::raw::{ExWant, Party, SeatedLock};
use std::alloc::Global;
use std::sync::Wait;
use std::thread::{Threads, join};

/// Acquires exclusively, loads the word, and releases. The word has no bits but those of a writer and of the bar.
pub fn write<R: Wait>(rt: &R, lock: &SeatedLock, mut party: Party) -> (Party, u64)
    requires lock { party.lock ≡ lock.now }
    requires idle { party.state.held ≡ no_hold }
    ensures alone { (result.1 ≡ 2 ^ 33) ⊎ (result.1 ≡ 2 ^ 34 + 2 ^ 33) }
    ensures lock { result.0.lock ≡ lock.now }
    ensures idle { result.0.state.held ≡ no_hold }
{
    lock.acquire(rt, &mut party, ExWant::Exclusive);
    let word = lock.load(&mut party);
    lock.release(&mut party, Mode::Exclusive);
    (party, word)
}

/// Acquires shared, loads the word, and releases. The word has no writer.
pub fn read<R: Wait>(rt: &R, lock: &SeatedLock, mut party: Party) -> (Party, u64)
    requires lock { party.lock ≡ lock.now }
    requires idle { party.state.held ≡ no_hold }
    ensures no_writer { result.1 % 2 ^ 34 < 2 ^ 33 }
    ensures lock { result.0.lock ≡ lock.now }
    ensures idle { result.0.state.held ≡ no_hold }
{
    lock.acquire(rt, &mut party, ExWant::Shared);
    let word = lock.load(&mut party);
    lock.release(&mut party, Mode::Shared);
    (party, word)
}

/// A writer and a reader, each on its thread. Returns the words that they loaded while they held the lock: the writer
/// saw no reader, and the reader saw no writer.
pub fn write_and_read<R: Threads + Wait + Sync>(
    rt: &R,
    alloc: Global,
    readers: u64,
) -> Result<(u64, u64), Fault>
    ensures writer { IfOk result (λ words. (words.0 ≡ 2 ^ 33) ⊎ (words.0 ≡ 2 ^ 34 + 2 ^ 33)) }
    ensures reader { IfOk result (λ words. words.1 % 2 ^ 34 < 2 ^ 33) }
{
    let (lock, party) = SeatedLock::new(alloc, readers)?;
    let (writer, reader) = lock.split(party);
    let ((_, written), (_, read)) = join(
        rt,
        || write(rt, &lock, writer),
        || read(rt, &lock, reader),
    );
    Ok((written, read))
}
