//! Integer constants.

ghost use Rattle.std.specs.Prelude.{◌≡◌, ◌+◌, ◌-◌, ◌^◌, ◌<◌, ◌≤◌, length, drop, min, Ok, IfOk, IsSome, slice_index, IsTrue};
ghost use Rattle.c_lexer.specs.Tokens as tokens;
ghost use Rattle.c_lexer.specs.Scan as spec;
ghost use Rattle.std.specs.List.{list_all};
ghost use Rattle.std.specs.Char.{is_digit, is_ascii_digit};

use crate::bytes::{byte_at, continues_number, digit_value};
use crate::piece::Piece;
use crate::token::{LexRefusal, TokenKind};
use srmt_base::Ty;

/// The value of the digits, and 2^32 for all that are no less.
pub fn value_in(base: u8, digits: &[u8]) -> u64
    requires { base ≤ 16 }
    ensures { result ≡ min (tokens.value_in base digits.now) (2 ^ 32) }
{
    let mut value = 0;
    for b in digits {
        value = (value * u64::from(base) + u64::from(digit_value(*b))).min(1 << 32);
    }
    value
}

fn base_of(body: &[u8]) -> u8
    ensures value { result ≡ tokens.base_of body.now }
    ensures within { result ≤ 16 }
    ensures prefix { result ≡ 16 → 2 ≤ length body.now }
{
    if byte_at(body, 0) != b'0' {
        return 10;
    }
    let second = byte_at(body, 1);
    let is_hexadecimal = second == b'x' || second == b'X';
    if is_hexadecimal { 16 } else { 8 }
}

fn digits_of(body: &[u8]) -> &[u8]
    ensures { result.now ≡ tokens.digits_of body.now }
{
    if base_of(body) == 16 {
        &body[2..]
    } else {
        body
    }
}

fn is_suffixed(word: &[u8]) -> bool
    ensures { result ≡ tokens.is_suffixed word.now }
{
    let last = if word.is_empty() {
        0
    } else {
        word[word.len() - 1]
    };
    last == b'u' || last == b'U'
}

fn unsuffixed(word: &[u8]) -> &[u8]
    ensures { result.now ≡ tokens.unsuffixed word.now }
{
    if is_suffixed(word) {
        &word[..word.len() - 1]
    } else {
        word
    }
}

fn are_digits(base: u8, digits: &[u8]) -> bool
    ensures { result ≡ list_all (λ b. is_digit b base) digits.now }
{
    digits.iter().all(|b| digit_value(*b) < base)
}

#[tactic(auto, unfolding(crate::specs::Tokens::is_constant))]
fn is_constant(word: &[u8]) -> bool
    ensures { result ≡ tokens.is_constant word.now }
{
    let body = unsuffixed(word);
    let digits = digits_of(body);
    !digits.is_empty() && are_digits(base_of(body), digits)
}

/// The first type that holds the value.
fn type_for(suffixed: bool, base: u8, value: u64) -> Option<Ty>
    ensures value { result ≡ tokens.type_for suffixed base value }
    ensures small { IsSome result → value < 2 ^ 32 }
{
    if !suffixed && value < 1 << 31 {
        Some(Ty::Int)
    } else if (suffixed || base != 10) && value < 1 << 32 {
        Some(Ty::UInt)
    } else {
        None
    }
}

/// What a number is that lies at a place of the source.
#[tactic(auto, unfolding(crate::specs::Scan::number_kind, crate::specs::Tokens::constant_type, crate::specs::Tokens::constant_value))]
fn number_kind(word: &[u8], at: u32) -> Result<TokenKind, LexRefusal>
    ensures { result ≡ spec.number_kind at word.now }
{
    if !is_constant(word) {
        return Err(LexRefusal::BadNumber(at));
    }
    let body = unsuffixed(word);
    let base = base_of(body);
    let value = value_in(base, digits_of(body));
    match type_for(is_suffixed(word), base, value) {
        None => Err(LexRefusal::LiteralTooWide(at)),
        Some(ty) => Ok(TokenKind::Number(ty, value as u32)),
    }
}

/// How many bytes go on with a number whose last byte is this.
fn number_len(last: u8, bytes: &[u8]) -> usize
    ensures value { result ≡ spec.number_len last bytes.now }
    ensures within { result ≤ length bytes.now }
{
    let mut last = last;
    for (len, b) in bytes.iter().enumerate() {
        if !continues_number(last, *b) {
            return len;
        }
        last = *b;
    }
    bytes.len()
}

/// The number that the bytes begin, which lie at a place of the source.
#[tactic(auto, unfolding(crate::specs::Scan::number))]
pub fn number(bytes: &[u8], at: u32) -> Result<(Piece, usize), LexRefusal>
    requires { 0 < length bytes.now }
    ensures value { result ≡ spec.number at bytes.now }
    ensures within { IfOk result (λ found. (1 ≤ found.1) × (found.1 ≤ length bytes.now)) }
{
    let len = number_len(bytes[0], &bytes[1..]) + 1;
    let kind = number_kind(&bytes[..len], at)?;
    Ok((Piece::Lexeme(kind), len))
}
