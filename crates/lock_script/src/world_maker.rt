//! The first line of a script of steps.
ghost use Rattle.std.specs.Prelude.{◌≡◌, ◌↔◌, IfSome, IsSome};
ghost use Rattle.script_text.specs.Lines.{fields_of};
ghost use Rattle.script_text.specs.Numbers.{IsUnsigned};
ghost use Rattle.lock_script.specs.Numbers.{AreTwo};
ghost use Rattle.lock_script.specs.WorldLines.{limit_fields};

use crate::line::ScriptLine;
use script_text::{first_field, unsigned};

/// The world that a script makes: its parties, and its readers' limit.
#[derive(Clone, Copy, PartialEq, Eq, Debug)]
pub struct WorldMaker {
    pub parties: u64,
    pub readers: u64,
}

impl ScriptLine for WorldMaker {
    ghost use Rattle.lock_script.specs.WorldLines.{IsWorldMaker, world_maker_fields};

    ghost fields = { world_maker_fields };

    ghost makes = { IsWorldMaker };

    fn read(line: &str) -> Option<WorldMaker> {
        let (word, rest) = first_field(line)?;
        match word {
            "world" => limits(rest),
            _ => None,
        }
    }
}

/// Reads the limits of a world from two fields.
fn limits(fields: &str) -> Option<WorldMaker>
    ensures some { IsSome result ↔ AreTwo IsUnsigned (fields_of fields.now) }
    ensures texts { IfSome result (λ maker. limit_fields maker ≡ fields_of fields.now) }
{
    let (parties, readers) = first_field(fields)?;
    let parties = unsigned(parties)?;
    let readers = unsigned(readers)?;
    Some(WorldMaker { parties, readers })
}
