//! The first line of a script of calls.
ghost use Rattle.std.specs.Prelude.{◌≡◌, ◌↔◌, ◌∷◌, IfSome, IsSome, decimal};
ghost use Rattle.script_text.specs.Lines.{fields_of};
ghost use Rattle.lock_script.specs.CallLines.{pair_fields};
ghost use Rattle.script_text.specs.Numbers.{IsSigned};
ghost use Rattle.lock_script.specs.Numbers.{AreTwo};
ghost use Rattle.lock_script.specs.Words.{AreLimitAndPair};

use crate::line::ScriptLine;
use crate::pair::Pair;
use script_text::{first_field, signed, unsigned};

/// The lock that a script makes: its places, its limit if it has one, and its first value.
#[derive(Clone, Copy, PartialEq, Eq, Debug)]
pub enum Maker {
    Mutex(u64, Pair),
    RwLock(u64, u64, Pair),
    Reentrant(u64, u64, Pair),
}

impl ScriptLine for Maker {
    ghost use Rattle.lock_script.specs.CallLines.{maker_fields};
    ghost use Rattle.lock_script.specs.Words.{IsMaker};

    ghost fields = { maker_fields };

    ghost makes = { IsMaker };

    fn read(line: &str) -> Option<Maker> {
        let (word, rest) = first_field(line)?;
        let (places, rest) = first_field(rest)?;
        let places = unsigned(places)?;
        match word {
            "mutex" => Some(Maker::Mutex(places, pair(rest)?)),
            "rwlock" => {
                let (readers, pair) = limit_and_pair(rest)?;
                Some(Maker::RwLock(places, readers, pair))
            }
            "reentrant" => {
                let (levels, pair) = limit_and_pair(rest)?;
                Some(Maker::Reentrant(places, levels, pair))
            }
            _ => None,
        }
    }
}

/// Reads a limit and a pair from three fields.
fn limit_and_pair(fields: &str) -> Option<(u64, Pair)>
    ensures some { IsSome result ↔ AreLimitAndPair (fields_of fields.now) }
    ensures texts { IfSome result (λ found. decimal found.0 ∷ pair_fields found.1 ≡ fields_of fields.now) }
{
    let (limit, rest) = first_field(fields)?;
    Some((unsigned(limit)?, pair(rest)?))
}

/// Reads a pair from two fields.
fn pair(fields: &str) -> Option<Pair>
    ensures some { IsSome result ↔ AreTwo IsSigned (fields_of fields.now) }
    ensures texts { IfSome result (λ pair. pair_fields pair ≡ fields_of fields.now) }
{
    let (first, second) = first_field(fields)?;
    let first = signed(first)?;
    let second = signed(second)?;
    Some(Pair { first, second })
}
