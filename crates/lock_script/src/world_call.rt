//! The lines of a script of steps.
ghost use Rattle.std.specs.Prelude.{◌≡◌, ◌↔◌, ◌∷◌, [], IfSome, IsSome, codes, decimal};
ghost use Rattle.lock_script.specs.Words.{IsOneOf};
ghost use Rattle.lock_script.specs.WorldLines.{IsChange, down_word, down_words, party_questions, want_word, want_words, world_call_fields};

use crate::line::ScriptLine;
use lock_word::{AtomicStep, Down, ExWant};
use script_text::{first_field, unsigned};

/// A step or a question of a script of steps.
#[derive(Clone, Copy, PartialEq, Eq, Debug)]
pub enum WorldCall {
    Step(AtomicStep),
    /// The word.
    Word,
    /// How many exchanges and subtractions of a party changed the word.
    Wins(u64),
    /// How many exchanges of a party found the word changed.
    Fails(u64),
    /// Whether a party has announced itself.
    Announced(u64),
}

impl ScriptLine for WorldCall {
    ghost use Rattle.lock_script.specs.WorldLines.{IsWorldCall};

    ghost fields = { world_call_fields };

    ghost makes = { IsWorldCall };

    fn read(line: &str) -> Option<WorldCall> {
        let Some((word, rest)) = first_field(line) else {
            return alone(line);
        };
        let Some((party, change)) = first_field(rest) else {
            return of_party(word, unsigned(rest)?);
        };
        of_change(word, unsigned(party)?, change)
    }
}

/// Reads the question of a single word.
fn alone(word: &str) -> Option<WorldCall>
    ensures fields { IfSome result (λ call. world_call_fields call ≡ word.now ∷ []) }
    ensures words { IsSome result ↔ (word.now ≡ codes "word") }
{
    match word {
        "word" => Some(WorldCall::Word),
        _ => None,
    }
}

/// Reads the load or question of a word and a party.
fn of_party(word: &str, party: u64) -> Option<WorldCall>
    ensures fields { IfSome result (λ call. world_call_fields call ≡ word.now ∷ decimal party ∷ []) }
    ensures words { IsSome result ↔ IsOneOf party_questions word.now }
{
    let call = match word {
        "load" => WorldCall::Step(AtomicStep::Load(party)),
        "wins" => WorldCall::Wins(party),
        "fails" => WorldCall::Fails(party),
        "announced" => WorldCall::Announced(party),
        _ => return None,
    };
    Some(call)
}

/// Reads the exchange or subtraction of a word, a party and a change.
fn of_change(word: &str, party: u64, change: &str) -> Option<WorldCall>
    ensures fields { IfSome result (λ call. world_call_fields call ≡ word.now ∷ decimal party ∷ change.now ∷ []) }
    ensures words { IsSome result ↔ IsChange word.now change.now }
{
    let step = match word {
        "exchange" => AtomicStep::Exchange(party, want(change)?),
        "take" => AtomicStep::Take(party, down(change)?),
        _ => return None,
    };
    Some(WorldCall::Step(step))
}

/// Reads what an exchange acquires or sets.
fn want(word: &str) -> Option<ExWant>
    ensures text { IfSome result (λ want. want_word want ≡ word.now) }
    ensures words { IsSome result ↔ IsOneOf want_words word.now }
{
    let want = match word {
        "shared" => ExWant::Shared,
        "exclusive" => ExWant::Exclusive,
        "upgradable" => ExWant::Upgradable,
        "upgrade" => ExWant::Upgrade,
        "announce" => ExWant::Announce,
        _ => return None,
    };
    Some(want)
}

/// Reads what a subtraction releases or downgrades.
fn down(word: &str) -> Option<Down>
    ensures text { IfSome result (λ down. down_word down ≡ word.now) }
    ensures words { IsSome result ↔ IsOneOf down_words word.now }
{
    let down = match word {
        "shared" => Down::Shared,
        "exclusive" => Down::Exclusive,
        "upgradable" => Down::Upgradable,
        "to_shared" => Down::ToShared,
        "to_upgradable" => Down::ToUpgradable,
        "upgradable_to_shared" => Down::UpgradableToShared,
        "withdraw" => Down::Withdraw,
        _ => return None,
    };
    Some(down)
}
