//! Numbers as fields: no leading zero, and no plus.
ghost use Rattle.std.specs.Prelude.{◌≡◌, ◌↔◌, IfSome, IsSome, IsTrue, decimal};
ghost use Rattle.std.specs.Fmt.{signed_decimal};
ghost use Rattle.script_text.specs.Numbers.{BeginsAbove0, HasForm, HasSignedForm, IsSigned, IsUnsigned};

/// Reads an unsigned number of 64 bits.
pub fn unsigned(field: &str) -> Option<u64>
    ensures text { IfSome result (λ number. decimal number ≡ field.now) }
    ensures some { IsSome result ↔ IsUnsigned field.now }
{
    if !has_form(field) {
        return None;
    }
    field.parse().ok()
}

/// Reads a signed number of 64 bits.
pub fn signed(field: &str) -> Option<i64>
    ensures text { IfSome result (λ number. signed_decimal number ≡ field.now) }
    ensures some { IsSome result ↔ IsSigned field.now }
{
    if !has_signed_form(field) {
        return None;
    }
    field.parse().ok()
}

/// Returns whether a field is `0`, or begins with a digit from 1 to 9.
fn has_form(field: &str) -> bool
    ensures { IsTrue result ↔ HasForm field.now }
{
    field == "0" || begins_above_0(field.as_bytes())
}

/// The same, with an optional minus before a digit from 1 to 9.
fn has_signed_form(field: &str) -> bool
    ensures { IsTrue result ↔ HasSignedForm field.now }
{
    match field.as_bytes() {
        [b'-', digits @ ..] => begins_above_0(digits),
        _ => has_form(field),
    }
}

/// Returns whether the first byte is a digit from 1 to 9.
fn begins_above_0(bytes: &[u8]) -> bool
    ensures { IsTrue result ↔ BeginsAbove0 bytes.now }
{
    match bytes {
        [first, ..] => b'1' <= *first && *first <= b'9',
        [] => false,
    }
}
