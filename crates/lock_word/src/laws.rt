//! Laws of the packed word and of the steps on it. Each is the contract of a function with an empty body.
ghost use Rattle.lock_word.specs.WordLaws.{ExchangesRefineSteps, SubtractionsRefineSteps, EncodingIsInjective};
ghost use Rattle.lock_word.specs.BarLaws.{BarEncodingsAgree};
ghost use Rattle.lock_word.specs.Claims.{EveryInterleaving};
ghost use Rattle.lock_word.specs.UnblockingLaws.{ExchangesUnblockNobody, UnblocksMissesNobody};

/// An exchange refines a step on the bag: the word admits it exactly where the bag and the bar permit the step, and the
/// new word is that of the new bag.
pub fn exchanges_refine_steps()
    ensures { ExchangesRefineSteps }
{}

/// A subtraction refines a step on the bag: if the party holds what it releases, the new word is that of the new bag.
pub fn subtractions_refine_steps()
    ensures { SubtractionsRefineSteps }
{}

/// The encoding is injective on legal states: two compatible bags with the same word, with or without a bar, are equal.
pub fn encoding_is_injective()
    ensures { EncodingIsInjective }
{}

/// The bar of a register names its party, and the bar of a word does not. Both admit the same acquisitions and are
/// cleared by the same ones.
pub fn bar_encodings_agree()
    ensures { BarEncodingsAgree }
{}

/// Takes any steps of any parties, in any order, from a new world. The steps that were done are a run of the modes, and
/// no party's failed exchanges outnumber the wins of the others.
pub fn every_interleaving()
    ensures { EveryInterleaving }
{}

/// An admitted exchange unblocks nobody: a waiter that the new word admits was admitted by the old one. So an
/// acquisition wakes nobody.
pub fn exchanges_unblock_nobody()
    ensures { ExchangesUnblockNobody }
{}

/// `unblocks` misses nobody: if it answers `false` for two words, a waiter that the second admits was admitted by the
/// first. It need not know which of the waiters set the bar.
pub fn unblocks_misses_nobody()
    ensures { UnblocksMissesNobody }
{}
