//! The parts of a packed word.
ghost use Rattle.std.specs.Prelude.{◌≡◌, ◌==◌, not};
ghost use Rattle.lock_modes.specs.Modes.{tokens};
ghost use Rattle.lock_word.specs.BarredBags.{is_barred};
ghost use Rattle.lock_word.specs.Word.{bag_of_word, barred_bag_of_word, word_with_bar};

/// What an upgradable hold adds to the word, besides counting as a reader.
pub const UPGRADABLE: u64 = 4_294_967_296;

/// What an exclusive hold adds to the word.
pub const EXCLUSIVE: u64 = 8_589_934_592;

/// What the bar adds to the word.
pub const BAR: u64 = 17_179_869_184;

/// Returns whether the word has a holder.
pub fn has_tokens(word: u64) -> bool
    ensures { result ≡ not (tokens (bag_of_word word) == 0) }
{
    word % BAR != 0
}

/// Returns whether the word has an exclusive holder.
pub fn has_exclusive(word: u64) -> bool
    ensures { result ≡ not ((bag_of_word word).exclusive == 0) }
{
    word / EXCLUSIVE % 2 != 0
}

/// Returns whether the word has the bar.
pub fn has_bar(word: u64) -> bool
    ensures { result ≡ is_barred (barred_bag_of_word word) }
{
    word >= BAR
}

/// Returns the word with the same holders, and with the bar or without it.
pub fn with_bar(word: u64, barred: bool) -> u64
    ensures { result ≡ word_with_bar word barred }
{
    if barred { word % BAR + BAR } else { word % BAR }
}
