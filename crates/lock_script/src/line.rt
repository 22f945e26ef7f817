//! Lines of scripts.
ghost use Rattle.std.specs.Prelude.{◌≡◌, ◌↔◌, ℕ, List, IfSome, IsSome};
ghost use Rattle.script_text.specs.Lines.{fields_of};
ghost use Rattle.script_text.specs.Parts.{bytes_of};
ghost use Rattle.lock_script.specs.Lines.{IsLine};

use script_text::Part;

/// What a line of one kind of script says.
pub trait ScriptLine: Sized {
    // The fields of its line.
    ghost fields: { Self → List (List ℕ) };

    // Whether the fields are those of such a line.
    ghost makes: { List (List ℕ) → Type 0 };

    /// Reads a line, or returns `None` for a bad one.
    fn read(line: &str) -> Option<Self>
        ensures fields { IfSome result (λ asked. fields asked ≡ fields_of line.now) }
        ensures some { IsSome result ↔ makes (fields_of line.now) };
}

/// Reads a line, or returns `None` for a bad one. A line that is not UTF-8 is bad.
pub fn read_line<L: ScriptLine>(line: Part) -> Option<L>
    ensures fields { IfSome result (λ asked. L.fields asked ≡ fields_of (bytes_of line.entry)) }
    ensures some { IsSome result ↔ IsLine L.makes (bytes_of line.entry) }
{
    L::read(line.text()?)
}
