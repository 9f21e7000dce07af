ghost use Rattle.std.specs.Prelude.{◌≡◌, ◌≤◌, ◌<◌, ◌^◌, length, IfSome};
ghost use Rattle.std.specs.Option.{option_map};
ghost use Rattle.std.specs.Char.{is_ascii_digit};
ghost use Rattle.std.specs.List.{prefix_len};
ghost use Rattle.std.specs.Str.Parse.{AllDigits};
ghost use Rattle.upset.specs.Reading as reading;

use crate::upset::{Target, Upset};
use srmt_base::Side;

/// The last step that can be named.
const MOST_STEP: u64 = (1 << 63) - 1;

/// The greatest value and the greatest pointer.
const MOST_VALUE: u64 = (1 << 44) - 1;

/// `SIDE:K:D:R:V` or `SIDE:K:cell:P:V`, and what is left behind it.
#[tactic(auto, unfolding(crate::specs::Reading::upset))]
pub(crate) fn upset(bytes: &[u8]) -> Option<(Upset, &[u8])>
    ensures { option_map (λ x. (x.0, x.1.now)) result ≡ reading.upset bytes.now }
{
    let (side, bytes) = side(bytes)?;
    let (step, bytes) = number(bytes, 1, MOST_STEP)?;
    let bytes = literal(bytes, b":")?;
    let (target, bytes) = target(bytes)?;
    let bytes = literal(bytes, b":")?;
    let (value, bytes) = number(bytes, 0, MOST_VALUE)?;
    let upset = Upset {
        side,
        step,
        target,
        value,
    };
    Some((upset, bytes))
}

/// `lead:` or `trail:`
#[tactic(auto, unfolding(crate::specs::Reading::side))]
fn side(bytes: &[u8]) -> Option<(Side, &[u8])>
    ensures { option_map (λ x. (x.0, x.1.now)) result ≡ reading.side bytes.now }
{
    match literal(bytes, b"lead:") {
        Some(rest) => Some((Side::Lead, rest)),
        None => {
            let rest = literal(bytes, b"trail:")?;
            Some((Side::Trail, rest))
        }
    }
}

/// `D:R` or `cell:P`
#[tactic(auto, unfolding(crate::specs::Reading::target))]
fn target(bytes: &[u8]) -> Option<(Target, &[u8])>
    ensures { option_map (λ x. (x.0, x.1.now)) result ≡ reading.target bytes.now }
{
    match literal(bytes, b"cell:") {
        Some(rest) => cell(rest),
        None => register(bytes),
    }
}

/// A pointer in decimal.
#[tactic(auto, unfolding(crate::specs::Reading::cell))]
fn cell(bytes: &[u8]) -> Option<(Target, &[u8])>
    ensures { option_map (λ x. (x.0, x.1.now)) result ≡ reading.cell bytes.now }
{
    let (pointer, bytes) = number(bytes, 0, MOST_VALUE)?;
    Some((Target::Cell(pointer), bytes))
}

/// A depth and a register in decimal.
#[tactic(auto, unfolding(crate::specs::Reading::register))]
fn register(bytes: &[u8]) -> Option<(Target, &[u8])>
    ensures { option_map (λ x. (x.0, x.1.now)) result ≡ reading.register bytes.now }
{
    let (depth, bytes) = number(bytes, 1, 2000)?;
    let bytes = literal(bytes, b":")?;
    let (register, bytes) = number(bytes, 0, 1023)?;
    Some((Target::Register(depth as u32, register as u16), bytes))
}

/// What is left behind a word.
#[tactic(auto, unfolding(crate::specs::Reading::literal))]
pub(crate) fn literal<'a>(bytes: &'a [u8], word: &[u8]) -> Option<&'a [u8]>
    ensures { option_map (λ x. x.now) result ≡ reading.literal word.now bytes.now }
{
    bytes.strip_prefix(word)
}

/// A number in decimal, of all digits that stand there, and what is left behind them.
#[tactic(auto, using(crate::proofs::Digits::front_digits), unfolding(crate::specs::Reading::number))]
fn number(bytes: &[u8], least: u64, most: u64) -> Option<(u64, &[u8])>
    ensures exact { option_map (λ x. (x.0, x.1.now)) result ≡ reading.number least most bytes.now }
    ensures within { IfSome result (λ x. x.0 ≤ most) }
{
    let (digits, rest) = bytes.split_at(digit_count(bytes));
    let value = value_of(digits, least, most)?;
    Some((value, rest))
}

/// How many digits stand at the front.
fn digit_count(bytes: &[u8]) -> usize
    ensures count { result ≡ prefix_len is_ascii_digit bytes.now }
    ensures within { result ≤ length bytes.now }
{
    bytes
        .iter()
        .take_while(|byte| byte.is_ascii_digit())
        .count()
}

/// The value of a number with these digits.
#[tactic(auto, unfolding(crate::specs::Reading::value_of))]
fn value_of(digits: &[u8], least: u64, most: u64) -> Option<u64>
    requires { AllDigits 10 digits.now }
    ensures exact { result ≡ reading.value_of least most digits.now }
    ensures within { IfSome result (λ value. value ≤ most) }
{
    if digits.len() > 1 && digits[0] == b'0' {
        return None;
    }
    let text = str::from_utf8(digits).ok()?;
    let value = text.parse().ok()?;
    (least <= value && value <= most).then_some(value)
}
