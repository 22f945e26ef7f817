//! A word as a lock stores it.
ghost use Rattle.std.specs.Prelude.{◌≡◌, ◌^◌};
ghost use Rattle.lock_one.specs.Stored.{stored_amount, stored_of, word_of_stored};

use lock_word::Down;

/// The place of the first flag of a word.
const FLAGS: u64 = 4_294_967_296;

/// Returns the number that a lock stores for the word: the flags are its bits 0 to 4, and the readers follow.
///
/// A sleep compares the low 32 bits, so these hold the flags and 27 bits of readers.
pub fn to_stored(word: u64) -> u64
    ensures { result ≡ stored_of word }
{
    word / FLAGS + 32 * (word % FLAGS)
}

/// Returns the word that the number stores.
pub fn from_stored(stored: u64) -> u64
    ensures { result ≡ word_of_stored stored }
{
    stored / 32 + FLAGS * (stored % 32)
}

/// Returns what a release subtracts from the stored word, modulo 2^64. Modulo 2^32 the same bits serve a word of 32 bits.
pub fn stored_amount(down: Down) -> u64
    ensures { result ≡ stored_amount (2 ^ 64) down }
{
    match down {
        Down::Shared => 32,
        Down::Exclusive => 2,
        Down::Upgradable => 33,
        // A downgrade adds a reader where it clears a flag.
        Down::ToShared => 18_446_744_073_709_551_586,
        Down::ToUpgradable => 18_446_744_073_709_551_585,
        Down::UpgradableToShared => 1,
        Down::Withdraw => 4,
    }
}
