//! Classes of bytes, and the byte at a place.

ghost use Rattle.std.specs.Prelude.{◌≡◌, ◌≢◌, ◌<◌, length, slice_index};
ghost use Rattle.c_lexer.specs.Tokens as spec;
ghost use Rattle.std.specs.Char.{digit_value};

/// The byte at a place, or 0 past the end.
pub fn byte_at(bytes: &[u8], at: usize) -> u8
    ensures value { result ≡ slice_index bytes.now at }
    ensures within { result ≢ 0 → at < length bytes.now }
{
    if at < bytes.len() { bytes[at] } else { 0 }
}

pub fn is_line_feed(b: u8) -> bool
    ensures { result ≡ spec.is_line_feed b }
{
    b == b'\n'
}

pub fn is_blank(b: u8) -> bool
    ensures { result ≡ spec.is_blank b }
{
    b == b' ' || (9 <= b && b <= 13)
}

pub fn begins_name(b: u8) -> bool
    ensures { result ≡ spec.begins_name b }
{
    b.is_ascii_alphabetic() || b == b'_'
}

pub fn continues_name(b: u8) -> bool
    ensures { result ≡ spec.continues_name b }
{
    b.is_ascii_alphanumeric() || b == b'_'
}

/// Whether the byte goes on with a number whose last byte so far is `last`.
pub fn continues_number(last: u8, b: u8) -> bool
    ensures { result ≡ spec.continues_number last b }
{
    let is_exponent = last == b'e' || last == b'E' || last == b'p' || last == b'P';
    continues_name(b) || b == b'.' || ((b == b'+' || b == b'-') && is_exponent)
}

/// The value of a digit or a letter, and 36 for any other byte.
pub fn digit_value(b: u8) -> u8
    ensures { result ≡ digit_value b }
{
    match b {
        b'0'..=b'9' => b - b'0',
        b'A'..=b'Z' => b - b'A' + 10,
        b'a'..=b'z' => b - b'a' + 10,
        _ => 36,
    }
}
