//! The words after the program's name.
ghost use Rattle.std.specs.Prelude.{◌≡◌, ◌∷◌, ◌↔◌, [], codes, map, Some, string_bytes};

use crate::choice::Which;

/// Returns the machine that the words choose, or `None` for the usage line.
pub fn which(words: &[String]) -> Option<Which>
    ensures table { (result ≡ Some Which.Table) ↔ (map string_bytes words.now ≡ codes "table" ∷ []) }
    ensures word { (result ≡ Some Which.Word) ↔ (map string_bytes words.now ≡ codes "word" ∷ []) }
    ensures steps { (result ≡ Some Which.Steps) ↔ (map string_bytes words.now ≡ codes "steps" ∷ []) }
{
    let [word] = words else {
        return None;
    };
    match word.as_str() {
        "table" => Some(Which::Table),
        "word" => Some(Which::Word),
        "steps" => Some(Which::Steps),
        _ => None,
    }
}
