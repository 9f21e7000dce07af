//! Comments, and the two `#include` lines.

ghost use Rattle.std.specs.Prelude.{◌≡◌, ◌+◌, ◌-◌, ◌^◌, ◌<◌, ◌≤◌, length, drop, codes, IfOk, IfSome, option_map};
ghost use Rattle.c_lexer.specs.Scan as spec;

use crate::bytes::{byte_at, is_blank, is_line_feed};
use crate::piece::Piece;
use crate::token::LexRefusal;

/// The place behind the `*/` that ends the block comment at the front.
fn comment_end(bytes: &[u8]) -> Option<usize>
    requires { 2 ≤ length bytes.now }
    ensures value { result ≡ spec.comment_end 2 (drop 2 bytes.now) }
    ensures within { IfSome result (λ end. (2 ≤ end) × (end ≤ length bytes.now)) }
{
    for at in 2..bytes.len() {
        if bytes[at] == b'*' && byte_at(bytes, at + 1) == b'/' {
            return Some(at + 2);
        }
    }
    None
}

/// The length of a line without its line feed.
pub fn line_len(bytes: &[u8]) -> usize
    ensures value { result ≡ spec.line_len bytes.now }
    ensures within { result ≤ length bytes.now }
{
    let mut len = 0;
    while len < bytes.len() && !is_line_feed(bytes[len]) {
        len += 1;
    }
    len
}

/// The block comment that the bytes begin, which lie at a place of the source.
#[tactic(auto, unfolding(crate::specs::Scan::block_comment))]
pub fn block_comment(bytes: &[u8], at: u32) -> Result<(Piece, usize), LexRefusal>
    requires { 2 ≤ length bytes.now }
    ensures value { result ≡ spec.block_comment at bytes.now }
    ensures within { IfOk result (λ found. (1 ≤ found.1) × (found.1 ≤ length bytes.now)) }
{
    match comment_end(bytes) {
        None => Err(LexRefusal::OpenComment(at)),
        Some(end) => Ok((Piece::BlockComment, end)),
    }
}

/// The length of the blank or block comment at the front, or 0.
#[tactic(auto, unfolding(crate::specs::Scan::gap_part))]
fn gap_part(bytes: &[u8]) -> usize
    ensures value { result ≡ spec.gap_part bytes.now }
    ensures within { result ≤ length bytes.now }
{
    let b = byte_at(bytes, 0);
    if is_blank(b) && !is_line_feed(b) {
        1
    } else if bytes.starts_with(b"/*") {
        comment_end(bytes).unwrap_or(0)
    } else {
        0
    }
}

/// What follows the blanks and block comments at the front.
fn past_gap(mut bytes: &[u8]) -> &[u8]
    ensures value { result.now ≡ spec.past_gap bytes.entry.now }
    ensures within { length result.now ≤ length bytes.entry.now }
{
    loop {
        let len = gap_part(bytes);
        if len == 0 {
            return bytes;
        }
        bytes = &bytes[len..];
    }
}

/// What follows the header at the front.
#[tactic(auto, unfolding(crate::specs::Scan::past_header))]
fn past_header(bytes: &[u8]) -> Option<&[u8]>
    ensures value { option_map (λ rest. rest.now) result ≡ spec.past_header bytes.now }
    ensures within { IfSome result (λ rest. length rest.now ≤ length bytes.now) }
{
    if bytes.starts_with(b"<stdio.h>") {
        Some(&bytes[9..])
    } else if bytes.starts_with(b"<stdlib.h>") {
        Some(&bytes[10..])
    } else {
        None
    }
}

/// What follows the word `include` at the front.
fn past_word(bytes: &[u8]) -> Option<&[u8]>
    ensures value { option_map (λ rest. rest.now) result ≡ spec.past_text (codes "include") bytes.now }
    ensures within { IfSome result (λ rest. length rest.now ≤ length bytes.now) }
{
    if bytes.starts_with(b"include") {
        Some(&bytes[7..])
    } else {
        None
    }
}

/// What follows the line comment at the front, if there is one.
#[tactic(auto, unfolding(crate::specs::Scan::past_comment))]
fn past_comment(bytes: &[u8]) -> &[u8]
    ensures value { result.now ≡ spec.past_comment bytes.now }
    ensures within { length result.now ≤ length bytes.now }
{
    if bytes.starts_with(b"//") {
        &bytes[line_len(bytes)..]
    } else {
        bytes
    }
}

/// What follows the `#include` line whose `#` the bytes follow.
#[tactic(auto, unfolding(crate::specs::Scan::past_include))]
fn past_include(bytes: &[u8]) -> Option<&[u8]>
    ensures value { option_map (λ rest. rest.now) result ≡ spec.past_include bytes.now }
    ensures within { IfSome result (λ rest. length rest.now ≤ length bytes.now) }
{
    let word = past_word(past_gap(bytes))?;
    let header = past_header(past_gap(word))?;
    let rest = past_comment(past_gap(header));
    if rest.is_empty() || is_line_feed(rest[0]) {
        Some(rest)
    } else {
        None
    }
}

/// The `#include` line that the bytes begin with their `#`, which lie at a place of the source.
#[tactic(auto, unfolding(crate::specs::Scan::directive))]
pub fn directive(bytes: &[u8], at: u32) -> Result<(Piece, usize), LexRefusal>
    requires { 0 < length bytes.now }
    ensures value { result ≡ spec.directive at bytes.now }
    ensures within { IfOk result (λ found. (1 ≤ found.1) × (found.1 ≤ length bytes.now)) }
{
    match past_include(&bytes[1..]) {
        None => Err(LexRefusal::Directive(at)),
        Some(rest) => Ok((Piece::Include, bytes.len() - rest.len())),
    }
}
