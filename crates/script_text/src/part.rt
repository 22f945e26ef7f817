//! A part of a text.
ghost use Rattle.std.specs.Prelude.{◌≡◌, ◌==◌, ◌<◌, ◌↔◌, ◌∷◌, length, position, IfSome, IsSome, Some};
ghost use Rattle.std.specs.Str.{IsUtf8};
ghost use Rattle.script_text.specs.Lines.{lines_of};
ghost use Rattle.script_text.specs.Parts.{bytes_of};

/// A part of a text. If the whole text is UTF-8, so is each of its lines, and no line is checked by itself.
#[derive(Clone, Copy)]
pub enum Part<'a> {
    Text(&'a str),
    Bytes(&'a [u8]),
}

impl<'a> Part<'a> {
    /// Makes a part of these bytes, as text if they are UTF-8.
    pub fn of(bytes: &'a [u8]) -> Part<'a>
        ensures { bytes_of result ≡ bytes.now }
    {
        match str::from_utf8(bytes) {
            Ok(text) => Part::Text(text),
            Err(_) => Part::Bytes(bytes),
        }
    }

    pub fn bytes(self) -> &'a [u8]
        ensures { result.now ≡ bytes_of self.entry }
    {
        match self {
            Part::Text(text) => text.as_bytes(),
            Part::Bytes(bytes) => bytes,
        }
    }

    /// Returns the text, or `None` if the bytes are not UTF-8.
    pub fn text(self) -> Option<&'a str>
        ensures some { IsSome result ↔ IsUtf8 (bytes_of self.entry) }
        ensures bytes { IfSome result (λ text. text.now ≡ bytes_of self.entry) }
    {
        match self {
            Part::Text(text) => Some(text),
            Part::Bytes(bytes) => str::from_utf8(bytes).ok(),
        }
    }

    /// Returns the first line, and the rest after its line feed.
    pub fn first_line(self) -> (Part<'a>, Part<'a>)
        requires { 0 < length (bytes_of self) }
        ensures lines { lines_of (bytes_of self.entry) ≡ bytes_of result.0 ∷ lines_of (bytes_of result.1) }
        ensures shorter { length (bytes_of result.1) < length (bytes_of self.entry) }
    {
        let Some(at) = line_end(self.bytes()) else {
            return (self, Part::Bytes(&[]));
        };
        match self {
            Part::Text(text) => {
                let (line, rest) = cut_text(text, at);
                (Part::Text(line), Part::Text(rest))
            }
            Part::Bytes(bytes) => {
                let (line, rest) = cut_bytes(bytes, at);
                (Part::Bytes(line), Part::Bytes(rest))
            }
        }
    }
}

/// Cuts a text at a line feed.
fn cut_text(text: &str, at: usize) -> (&str, &str)
    requires { position (λ b. b == 10) text.now ≡ Some at }
    ensures lines { lines_of text.now ≡ result.0.now ∷ lines_of result.1.now }
    ensures shorter { length result.1.now < length text.now }
{
    (&text[..at], &text[at + 1..])
}

/// Cuts bytes at a line feed.
fn cut_bytes(bytes: &[u8], at: usize) -> (&[u8], &[u8])
    requires { position (λ b. b == 10) bytes.now ≡ Some at }
    ensures lines { lines_of bytes.now ≡ result.0.now ∷ lines_of result.1.now }
    ensures shorter { length result.1.now < length bytes.now }
{
    (&bytes[..at], &bytes[at + 1..])
}

/// Finds the first line feed.
fn line_end(bytes: &[u8]) -> Option<usize>
    ensures place { result ≡ position (λ b. b == 10) bytes.now }
    ensures within { IfSome result (λ at. at < length bytes.now) }
{
    bytes.iter().position(|byte| *byte == b'\n')
}
