//! Character constants and texts.

ghost use Rattle.std.specs.Prelude.{◌≡◌, ◌+◌, ◌-◌, ◌^◌, ◌<◌, ◌≤◌, length, drop, Ok, IfOk, IfSome, slice_index, IsTrue, is_some, false, option_map};
ghost use Rattle.c_lexer.specs.Tokens.{text_bytes};
ghost use Rattle.c_lexer.specs.Tokens as tokens;
ghost use Rattle.c_lexer.specs.Scan as spec;
ghost use Rattle.std.specs.List.{prefix_len};
ghost use Rattle.std.specs.Char.{is_digit};

use crate::bytes::{byte_at, digit_value, is_line_feed};
use crate::number::value_in;
use crate::piece::Piece;
use crate::token::{LexRefusal, Token, TokenKind};
use std::alloc::{AllocError, Global};

/// How many digits of a base the bytes begin with.
fn digits_len(base: u8, bytes: &[u8]) -> usize
    ensures value { result ≡ prefix_len (λ b. is_digit b base) bytes.now }
    ensures within { result ≤ length bytes.now }
{
    let mut len = 0;
    while len < bytes.len() && digit_value(bytes[len]) < base {
        len += 1;
    }
    len
}

/// The byte that a letter or a mark after `\` means.
fn escape_byte(c: u8) -> Option<u8>
    ensures { result ≡ tokens.escape_byte c }
{
    match c {
        b'n' => Some(b'\n'),
        b't' => Some(b'\t'),
        b'r' => Some(b'\r'),
        b'a' => Some(7),
        b'b' => Some(8),
        b'f' => Some(12),
        b'v' => Some(11),
        b'\\' | b'\'' | b'"' | b'?' => Some(c),
        _ => None,
    }
}

/// The byte whose value the digits spell, and the number of bytes of the whole escape.
fn byte_in(base: u8, digits: &[u8], len: usize) -> Option<(u8, usize)>
    requires { base ≤ 16 }
    ensures { result ≡ tokens.byte_of (tokens.value_in base digits.now) len }
{
    let value = value_in(base, digits);
    if value < 256 {
        Some((value as u8, len))
    } else {
        None
    }
}

/// How many octal digits the bytes begin with, up to three.
#[tactic(auto, unfolding(crate::specs::Tokens::octal_len))]
fn octal_len(bytes: &[u8]) -> usize
    ensures value { result ≡ tokens.octal_len bytes.now }
    ensures within { result ≤ length bytes.now }
{
    digits_len(8, &bytes[..bytes.len().min(3)])
}

/// How many hexadecimal digits follow the `x` that the bytes begin with.
#[tactic(auto, unfolding(crate::specs::Tokens::hexadecimal_len))]
fn hexadecimal_len(bytes: &[u8]) -> usize
    ensures value { result ≡ tokens.hexadecimal_len bytes.now }
    ensures within { result ≤ length bytes.now - 1 }
    ensures behind { 0 < result → 0 < length bytes.now }
{
    if byte_at(bytes, 0) == b'x' {
        digits_len(16, &bytes[1..])
    } else {
        0
    }
}

/// What an escape means whose `\` the bytes follow, and how many bytes spell it with the `\`.
#[tactic(auto, unfolding(crate::specs::Tokens::escape))]
fn escape(bytes: &[u8]) -> Option<(u8, usize)>
    requires { length bytes.now < 2 ^ 32 }
    ensures value { result ≡ tokens.escape bytes.now }
    ensures within { IfSome result (λ first. (2 ≤ first.1) × (first.1 ≤ length bytes.now + 1)) }
{
    let octal = octal_len(bytes);
    if octal > 0 {
        return byte_in(8, &bytes[..octal], octal + 1);
    }
    let hexadecimal = hexadecimal_len(bytes);
    if hexadecimal > 0 {
        return byte_in(16, &bytes[1..][..hexadecimal], hexadecimal + 2);
    }
    let b = escape_byte(byte_at(bytes, 0))?;
    Some((b, 2))
}

/// The first byte that a body means, and how many bytes spell it.
fn first_byte(body: &[u8]) -> Option<(u8, usize)>
    requires { length body.now < 2 ^ 32 }
    ensures value { result ≡ tokens.first_byte body.now }
    ensures within { IfSome result (λ first. (1 ≤ first.1) × (first.1 ≤ length body.now)) }
{
    match body {
        [] => None,
        [b'\\', rest @ ..] => escape(rest),
        [b, ..] => Some((*b, 1)),
    }
}

/// The byte that a body means, where it means exactly one.
fn one_byte(body: &[u8]) -> Option<u8>
    requires { length body.now < 2 ^ 32 }
    ensures { result ≡ tokens.one_byte body.now }
{
    match first_byte(body) {
        None => None,
        Some((b, len)) => { if len == body.len() { Some(b) } else { None } }
    }
}

/// Whether each escape of a body is known and below 256.
fn is_decodable(mut body: &[u8]) -> bool
    requires { length body.now < 2 ^ 32 }
    ensures { result ≡ is_some (tokens.decoded body.entry.now) }
{
    while !body.is_empty() {
        match first_byte(body) {
            None => return false,
            Some((_value, len)) => body = &body[len..],
        }
    }
    true
}

/// The place of the closing quote.
fn closing(quote: u8, bytes: &[u8]) -> Option<usize>
    ensures value { result ≡ spec.closing quote false 0 bytes.now }
    ensures within { IfSome result (λ len. len < length bytes.now) }
{
    let mut is_escaped = false;
    for (at, b) in bytes.iter().enumerate() {
        if is_line_feed(*b) {
            return None;
        }
        if !is_escaped && *b == quote {
            return Some(at);
        }
        is_escaped = !is_escaped && *b == b'\\';
    }
    None
}

/// What a body is between these quotes, where the token lies at a place of the source.
#[tactic(auto, unfolding(crate::specs::Scan::quoted_kind))]
fn quoted_kind(quote: u8, body: &[u8], at: u32) -> Result<TokenKind, LexRefusal>
    requires { length body.now < 2 ^ 32 }
    ensures { result ≡ spec.quoted_kind at quote body.now }
{
    if quote != b'\'' {
        return if is_decodable(body) {
            Ok(TokenKind::Text)
        } else {
            Err(LexRefusal::BadText(at))
        };
    }
    match one_byte(body) {
        None => Err(LexRefusal::BadText(at)),
        Some(b) => Ok(TokenKind::Character(character_value(b))),
    }
}

/// A byte as a `char`, modulo 2^32.
fn character_value(b: u8) -> u32
    ensures { result ≡ tokens.character_value b }
{
    if b < 128 {
        u32::from(b)
    } else {
        u32::from(b) + (u32::MAX - 255)
    }
}

/// The quoted token that the bytes begin, which lie at a place of the source.
#[tactic(auto, unfolding(crate::specs::Scan::quoted))]
pub fn quoted(bytes: &[u8], at: u32) -> Result<(Piece, usize), LexRefusal>
    requires first { 0 < length bytes.now }
    requires short { length bytes.now < 2 ^ 32 }
    ensures value { result ≡ spec.quoted at bytes.now }
    ensures within { IfOk result (λ found. (1 ≤ found.1) × (found.1 ≤ length bytes.now)) }
{
    let body = &bytes[1..];
    match closing(bytes[0], body) {
        None => Err(LexRefusal::OpenText(at)),
        Some(len) => {
            let kind = quoted_kind(bytes[0], &body[..len], at)?;
            Ok((Piece::Lexeme(kind), len + 2))
        }
    }
}

/// The bytes that a body means, or none where an escape is unknown or above 255.
fn decode(alloc: Global, mut body: &[u8]) -> Result<Option<Vec<u8>>, AllocError>
    requires { length body.now < 2 ^ 32 }
    ensures { IfOk result (λ found. option_map (λ bytes. bytes.items) found ≡ tokens.decoded body.entry.now) }
{
    let mut bytes = Vec::new(alloc);
    while !body.is_empty() {
        let Some((b, len)) = first_byte(body) else {
            return Ok(None);
        };
        bytes.push(b)?;
        body = &body[len..];
    }
    Ok(Some(bytes))
}

/// What stands between the quotes of a quoted token.
fn inner(word: &[u8]) -> &[u8]
    ensures { result.now ≡ tokens.inner word.now }
{
    if word.len() < 2 {
        &[]
    } else {
        &word[1..word.len() - 1]
    }
}

/// The bytes of a text token of a source, its escapes read (C11 6.4.5); none where the source has no text there.
pub fn text(alloc: Global, src: &[u8], token: Token) -> Result<Option<Vec<u8>>, AllocError>
    requires text { token.kind ≡ TokenKind.Text }
    requires start { token.start ≤ token.end }
    requires end { token.end ≤ length src.now }
    ensures { IfOk result (λ found. option_map (λ bytes. bytes.items) found ≡ text_bytes src.now token) }
{
    let word = &src[token.start as usize..token.end as usize];
    decode(alloc, inner(word))
}
