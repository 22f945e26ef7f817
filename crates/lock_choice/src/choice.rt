//! What the words after the program's name choose.
ghost use Rattle.std.specs.Prelude.{◌≡◌, ◌≢◌, ◌↔◌, IfNone, IfSome, codes};
ghost use Rattle.lock_choice.specs.Choices.{HasWord, mistake_word};

use crate::words::{are_options, has};
use crate::wrong::Mistake;
use lock_conform::{Manner, ParkBy};

/// A raw lock of the library, or one that makes a mistake.
#[derive(Clone, Copy, PartialEq, Eq, Debug)]
pub enum RawChoice {
    Word,
    Table,
    Timed,
    Recording,
    Fair,
    TimedFair,
    Wrong(Mistake),
}

/// How a script is run, and what is printed.
#[derive(Clone, Copy, PartialEq, Eq, Debug)]
pub struct Choice {
    pub raw: RawChoice,
    pub manner: Manner,
    pub prints_calls: bool,
}

impl Choice {
    ghost use Rattle.lock_choice.specs.Choices.{IsChoice};

    /// Returns what the words choose, or `None` for the usage line.
    pub fn of_words(words: &[String]) -> Option<Choice>
        ensures some { IfSome result (IsChoice words.now) }
        ensures none { IfNone result ((choice : Choice) → ¬ IsChoice words.now choice) }
    {
        let (first, options) = words.split_first()?;
        let raw = RawChoice::of_word(first.as_str())?;
        if !are_options(options) {
            return None;
        }
        Some(Choice {
            raw,
            manner: Manner {
                park_by: park_by(options),
                is_arc: has(options, "arc"),
            },
            prints_calls: has(options, "calls"),
        })
    }
}

impl RawChoice {
    ghost use Rattle.lock_choice.specs.Choices.{raw_word};

    /// Returns the raw lock of a word.
    fn of_word(word: &str) -> Option<RawChoice>
        ensures some { IfSome result (λ raw. word.now ≡ raw_word raw) }
        ensures none { IfNone result ((raw : RawChoice) → word.now ≢ raw_word raw) }
    {
        match word {
            "word" => Some(RawChoice::Word),
            "table" => Some(RawChoice::Table),
            "timed" => Some(RawChoice::Timed),
            "recording" => Some(RawChoice::Recording),
            "fair" => Some(RawChoice::Fair),
            "timed_fair" => Some(RawChoice::TimedFair),
            _ => Some(RawChoice::Wrong(mistake_of_word(word)?)),
        }
    }
}

/// Returns the mistake of a word.
fn mistake_of_word(word: &str) -> Option<Mistake>
    ensures some { IfSome result (λ mistake. word.now ≡ mistake_word mistake) }
    ensures none { IfNone result ((mistake : Mistake) → word.now ≢ mistake_word mistake) }
{
    match word {
        "extra_reader" => Some(Mistake::ExtraReader),
        "upgrade_among_readers" => Some(Mistake::UpgradeAmongReaders),
        "refusal_admits" => Some(Mistake::RefusalAdmits),
        "kept_token" => Some(Mistake::KeptToken),
        "fair_kept_token" => Some(Mistake::FairKeptToken),
        "half_bump" => Some(Mistake::HalfBump),
        "timed_refusal" => Some(Mistake::TimedRefusal),
        _ => None,
    }
}

/// Returns how the options choose to park.
fn park_by(options: &[String]) -> ParkBy
    ensures { (result ≡ ParkBy.Unlocked) ↔ HasWord options.now (codes "within") }
{
    if has(options, "within") {
        ParkBy::Unlocked
    } else {
        ParkBy::Release
    }
}
