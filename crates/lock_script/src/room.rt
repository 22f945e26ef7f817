//! Memory that is reused.
ghost use Rattle.std.specs.Prelude.{◌≡◌, [], string_bytes};

/// Makes an empty text in the memory of these bytes.
pub fn emptied(mut bytes: Vec<u8>) -> String
    ensures { string_bytes result ≡ [] }
{
    bytes.clear();
    let Ok(text) = String::from_utf8(bytes) else {
        unreachable!()
    };
    text
}
