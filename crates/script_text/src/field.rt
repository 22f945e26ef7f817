//! The first field of a line.
ghost use Rattle.std.specs.Prelude.{◌≡◌, ◌==◌, ◌<◌, ◌∷◌, [], length, position, IfNone, IfSome};
ghost use Rattle.script_text.specs.Lines.{fields_of};

/// Returns the first field and the rest after its space, or `None` if the line is one field.
pub fn first_field(line: &str) -> Option<(&str, &str)>
    ensures more { IfSome result (λ parts. fields_of line.now ≡ parts.0.now ∷ fields_of parts.1.now) }
    ensures one { IfNone result (fields_of line.now ≡ line.now ∷ []) }
{
    let at = space(line)?;
    Some((&line[..at], &line[at + 1..]))
}

/// Finds the first space. Not inlined, so that the search compiles to a short loop.
#[inline(never)]
fn space(line: &str) -> Option<usize>
    ensures place { result ≡ position (λ b. b == 32) line.now }
    ensures within { IfSome result (λ at. at < length line.now) }
{
    line.as_bytes().iter().position(|byte| *byte == b' ')
}
