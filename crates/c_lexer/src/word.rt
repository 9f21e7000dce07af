//! Names, keywords and punctuators.

ghost use Rattle.std.specs.Prelude.{◌≡◌, ◌+◌, ◌-◌, ◌^◌, ◌<◌, ◌≤◌, length, IfOk, IfSome, Ok, slice_index, IsTrue, position, bytes_eq, [], ◌∷◌};
ghost use Rattle.c_lexer.specs.Tokens as tokens;
ghost use Rattle.c_lexer.specs.Scan as spec;
ghost use Rattle.std.specs.List.{prefix_len};

use crate::bytes::{byte_at, continues_name};
use crate::piece::Piece;
use crate::token::{KEYWORDS, LexRefusal, TokenKind};

fn name_len(bytes: &[u8]) -> usize
    ensures value { result ≡ prefix_len tokens.continues_name bytes.now }
    ensures within { result ≤ length bytes.now }
{
    let mut len = 0;
    while len < bytes.len() && continues_name(bytes[len]) {
        len += 1;
    }
    len
}

/// The first place of a word in a table.
fn place_in(table: &[&[u8]], word: &[u8]) -> Option<usize>
    ensures value { result ≡ position (λ entry. bytes_eq entry.now word.now) table.now }
    ensures within { IfSome result (λ place. place < length table.now) }
{
    table.iter().position(|entry| *entry == word)
}

/// Whether a keyword begins with a byte and has a length.
fn is_shaped(first: u8, len: usize) -> bool
    ensures { result ≡ spec.is_shaped first len }
{
    match first {
        b'a' | b'g' | b'l' => len == 4,
        b'b' | b'w' => len == 5,
        b'c' => len == 4 || len == 5 || len == 8,
        b'd' => len == 2 || len == 6 || len == 7,
        b'e' => len == 4 || len == 6,
        b'f' => len == 3 || len == 5,
        b'i' => len == 2 || len == 3 || len == 6,
        b'r' => len == 6 || len == 8,
        b's' => len == 5 || len == 6,
        b't' => len == 7,
        b'u' => len == 5 || len == 8,
        b'v' => len == 4 || len == 8,
        b'_' => 5 <= len,
        _ => false,
    }
}

#[tactic(auto, using(crate::proofs::Shapes::unshaped), unfolding(crate::specs::Tokens::keyword_place))]
fn keyword_place(word: &[u8]) -> Option<u8>
    ensures { result ≡ tokens.keyword_place word.now }
{
    if !is_shaped(byte_at(word, 0), word.len()) {
        return None;
    }
    let place = place_in(&KEYWORDS, word)?;
    Some(place as u8)
}

/// The name or keyword that the bytes begin.
#[tactic(auto, unfolding(crate::specs::Scan::name))]
pub fn name(bytes: &[u8]) -> (Piece, usize)
    requires first { 0 < length bytes.now }
    requires begins { IsTrue (tokens.begins_name (slice_index bytes.now 0)) }
    ensures value { Ok result ≡ spec.name bytes.now }
    ensures within { (1 ≤ result.1) × (result.1 ≤ length bytes.now) }
{
    let len = name_len(bytes);
    let kind = match keyword_place(&bytes[..len]) {
        None => TokenKind::Name,
        Some(place) => TokenKind::Keyword(place),
    };
    (Piece::Lexeme(kind), len)
}

/// The place of the punctuator of one byte.
#[tactic(auto, unfolding(crate::specs::Tokens::punctuator_place))]
fn single_place(b: u8) -> Option<u8>
    ensures { result ≡ tokens.punctuator_place (b ∷ []) }
{
    match b {
        b'[' => Some(0),
        b']' => Some(1),
        b'(' => Some(2),
        b')' => Some(3),
        b'{' => Some(4),
        b'}' => Some(5),
        b'.' => Some(6),
        b'&' => Some(10),
        b'*' => Some(11),
        b'+' => Some(12),
        b'-' => Some(13),
        b'~' => Some(14),
        b'!' => Some(15),
        b'/' => Some(16),
        b'%' => Some(17),
        b'<' => Some(20),
        b'>' => Some(21),
        b'^' => Some(26),
        b'|' => Some(27),
        b'?' => Some(30),
        b':' => Some(31),
        b';' => Some(32),
        b'=' => Some(34),
        b',' => Some(45),
        _ => None,
    }
}

/// The punctuator of one byte at the front.
#[tactic(auto, unfolding(crate::specs::Scan::punctuator_of_length))]
fn single(bytes: &[u8]) -> Option<(u8, usize)>
    ensures value { result ≡ spec.punctuator_of_length 1 bytes.now }
    ensures within { IfSome result (λ found. (found.1 ≡ 1) × (1 ≤ length bytes.now)) }
{
    match bytes {
        [] => None,
        [b, ..] => {
            let place = single_place(*b)?;
            Some((place, 1))
        }
    }
}

/// The place of the punctuator of two bytes, of which the second is `=`.
#[tactic(auto, unfolding(crate::specs::Tokens::punctuator_place))]
fn equal_place(first: u8) -> Option<u8>
    ensures { result ≡ tokens.punctuator_place (first ∷ 61 ∷ []) }
{
    match first {
        b'<' => Some(22),
        b'>' => Some(23),
        b'=' => Some(24),
        b'!' => Some(25),
        b'*' => Some(35),
        b'/' => Some(36),
        b'%' => Some(37),
        b'+' => Some(38),
        b'-' => Some(39),
        b'&' => Some(42),
        b'^' => Some(43),
        b'|' => Some(44),
        _ => None,
    }
}

/// The place of the punctuator of two bytes.
#[tactic(auto, unfolding(crate::specs::Tokens::punctuator_place))]
fn pair_place(first: u8, second: u8) -> Option<u8>
    ensures { result ≡ tokens.punctuator_place (first ∷ second ∷ []) }
{
    match second {
        b'=' => equal_place(first),
        b'>' if first == b'-' => Some(7),
        b'>' if first == b'>' => Some(19),
        b'<' if first == b'<' => Some(18),
        b'+' if first == b'+' => Some(8),
        b'-' if first == b'-' => Some(9),
        b'&' if first == b'&' => Some(28),
        b'|' if first == b'|' => Some(29),
        _ => None,
    }
}

/// The place of the punctuator of three bytes.
#[tactic(auto, unfolding(crate::specs::Tokens::punctuator_place))]
fn triple_place(first: u8, second: u8, third: u8) -> Option<u8>
    ensures { result ≡ tokens.punctuator_place (first ∷ second ∷ third ∷ []) }
{
    if first != second {
        None
    } else if first == b'.' && third == b'.' {
        Some(33)
    } else if first == b'<' && third == b'=' {
        Some(40)
    } else if first == b'>' && third == b'=' {
        Some(41)
    } else {
        None
    }
}

/// The punctuator of two bytes at the front.
#[tactic(auto, unfolding(crate::specs::Scan::punctuator_of_length))]
fn pair(bytes: &[u8]) -> Option<(u8, usize)>
    ensures value { result ≡ spec.punctuator_of_length 2 bytes.now }
    ensures within { IfSome result (λ found. (found.1 ≡ 2) × (2 ≤ length bytes.now)) }
{
    match bytes {
        [first, second, ..] => {
            let place = pair_place(*first, *second)?;
            Some((place, 2))
        }
        _ => None,
    }
}

/// The punctuator of three bytes at the front.
#[tactic(auto, unfolding(crate::specs::Scan::punctuator_of_length))]
fn triple(bytes: &[u8]) -> Option<(u8, usize)>
    ensures value { result ≡ spec.punctuator_of_length 3 bytes.now }
    ensures within { IfSome result (λ found. (found.1 ≡ 3) × (3 ≤ length bytes.now)) }
{
    match bytes {
        [first, second, third, ..] => {
            let place = triple_place(*first, *second, *third)?;
            Some((place, 3))
        }
        _ => None,
    }
}

/// Whether a byte is the second of a punctuator.
fn is_second(b: u8) -> bool
    ensures { result ≡ spec.is_second b }
{
    matches!(b, b'=' | b'>' | b'<' | b'+' | b'-' | b'&' | b'|' | b'.')
}

/// The longest punctuator at the front, of which none is longer than three bytes.
#[tactic(auto, using(crate::proofs::Marks::alone), unfolding(crate::specs::Scan::punctuator))]
fn punctuator(bytes: &[u8]) -> Option<(u8, usize)>
    ensures value { result ≡ spec.punctuator bytes.now }
    ensures within { IfSome result (λ found. (1 ≤ found.1) × (found.1 ≤ length bytes.now)) }
{
    if !is_second(byte_at(bytes, 1)) {
        return single(bytes);
    }
    if let Some(found) = triple(bytes) {
        return Some(found);
    }
    if let Some(found) = pair(bytes) {
        return Some(found);
    }
    single(bytes)
}

/// The punctuator that the bytes begin, which lie at a place of the source.
#[tactic(auto, unfolding(crate::specs::Scan::mark))]
pub fn mark(bytes: &[u8], at: u32) -> Result<(Piece, usize), LexRefusal>
    ensures value { result ≡ spec.mark at bytes.now }
    ensures within { IfOk result (λ found. (1 ≤ found.1) × (found.1 ≤ length bytes.now)) }
{
    match punctuator(bytes) {
        None => Err(LexRefusal::BadByte(at)),
        Some((place, len)) => Ok((Piece::Lexeme(TokenKind::Punct(place)), len)),
    }
}
