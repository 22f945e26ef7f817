//! What callers of a seated lock can prove of the words that they load.
ghost use Rattle.std.specs.Prelude.{◌≡◌, ◌+◌, ◌%◌, ◌<◌, ◌≤◌, ◌^◌, ◌⊎◌, true};
ghost use Rattle.lock_word.specs.Word.{guards_of_word, readers_of_word};

use lock_word::ExWant;
use lock_word::seated::{Attempt, Party, SeatedLock};

/// The word that an exclusive holder loads.
pub fn loaded_alone(lock: &SeatedLock, party: &mut Party) -> u64
    requires of_lock { party.old.lock ≡ lock.now }
    requires holds { 0 < party.old.state.held.bag.exclusive }
    ensures alone { (result ≡ 2 ^ 33) ⊎ (result ≡ 2 ^ 34 + 2 ^ 33) }
    ensures of_lock { party.new.lock ≡ party.old.lock }
    ensures same { party.new.state.held ≡ party.old.state.held }
{
    lock.load(party)
}

/// The word that a shared holder loads.
pub fn loaded_beside_readers(lock: &SeatedLock, party: &mut Party) -> u64
    requires of_lock { party.old.lock ≡ lock.now }
    requires holds { 0 < party.old.state.held.bag.shared }
    ensures reader { 0 < readers_of_word result }
    ensures no_writer { result % 2 ^ 34 < 2 ^ 33 }
    ensures of_lock { party.new.lock ≡ party.old.lock }
    ensures same { party.new.state.held ≡ party.old.state.held }
{
    lock.load(party)
}

/// The word that refuses an exclusive hold to a shared holder, or 0 if it was not refused.
pub fn refused_beside_readers(lock: &SeatedLock, party: &mut Party) -> u64
    requires of_lock { party.old.lock ≡ lock.now }
    requires holds { 0 < party.old.state.held.bag.shared }
    ensures no_writer { result % 2 ^ 34 < 2 ^ 33 }
    ensures of_lock { party.new.lock ≡ party.old.lock }
{
    match lock.attempt(party, ExWant::Exclusive) {
        Attempt::NotAdmitted(word) => word,
        Attempt::Done | Attempt::Changed => 0,
    }
}

/// The word that an announced party loads. No guard came since its last load.
pub fn loaded_under_own_bar(lock: &SeatedLock, party: &mut Party) -> u64
    requires of_lock { party.old.lock ≡ lock.now }
    requires announced { party.old.state.held.announced ≡ true }
    ensures bar { 2 ^ 34 ≤ result }
    ensures guards { guards_of_word result ≤ guards_of_word party.old.last }
    ensures of_lock { party.new.lock ≡ party.old.lock }
    ensures same { party.new.state.held ≡ party.old.state.held }
{
    lock.load(party)
}
