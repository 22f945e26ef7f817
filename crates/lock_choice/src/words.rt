//! Lists of words.
ghost use Rattle.std.specs.Prelude.{◌≡◌, ◌↔◌, IsTrue, All, string_bytes};
ghost use Rattle.lock_choice.specs.Choices.{HasWord, IsOption};

/// Returns whether the word is among the words.
pub fn has(words: &[String], word: &str) -> bool
    ensures { IsTrue result ↔ HasWord words.now word.now }
{
    !words.iter().all(|it| it.as_str() != word)
}

/// Returns whether each word is an option.
pub fn are_options(words: &[String]) -> bool
    ensures { IsTrue result ↔ All (λ it. IsOption (string_bytes it)) words.now }
{
    words.iter().all(|it| is_option(it.as_str()))
}

/// Returns whether the word is an option.
fn is_option(word: &str) -> bool
    ensures { IsTrue result ↔ IsOption word.now }
{
    match word {
        "within" | "arc" | "calls" => true,
        _ => false,
    }
}
