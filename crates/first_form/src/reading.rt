ghost use Rattle.std.specs.Prelude.{◌≡◌, ℕ, ◌+◌, ◌^◌, ◌<◌, ◌≤◌, Some, None, length, IfOk, IsErrOf, MatchResult};
ghost use Rattle.std.specs.Option.{option_map};
ghost use Rattle.std.specs.Char.{is_ascii_digit};
ghost use Rattle.std.specs.List.{prefix_len};
ghost use Rattle.std.specs.Str.Parse.{AllDigits};
ghost use Rattle.first_form.specs.declared.source.FirstForm.{FirstForm};
ghost use Rattle.first_form.specs.FirstForm.{is_blank, IsFirstForm};
ghost use Rattle.first_form.specs.Place.{place_of};
ghost use Rattle.first_form.specs.Reading.{seen, skip_blanks, space, token, value_of, constant, head, put, puts, tail, first_form};

use crate::rest::Rest;
use crate::source::{Constant, FirstForm, FormRefusal, PutConstant};
use sqlite_items::Items;
use std::alloc::{AllocError, Global};

/// How many bytes a source of the first form writes at most.
const MOST_PUTS: u32 = 20_000;

/// The largest value of an `int`.
const MOST: u32 = 2_147_483_647;

/// The first form that a source has. The lines of a source are numbers of 32 bits.
pub fn read_first_form(alloc: Global, source: &[u8]) -> Result<FirstForm, FormRefusal>
    requires { length source.now + 1 < 2 ^ 32 }
    ensures found { IfOk result (IsFirstForm source.now) }
    ensures one { (a b : FirstForm) → IsFirstForm source.now a → IsFirstForm source.now b → a ≡ b }
    ensures none { IsErrOf result FormRefusal.Form
        → (form : FirstForm) → IsFirstForm source.now form → ⊥ }
{
    whole(alloc, source)
}

/// The form that the parts of the source give.
#[tactic(auto, unfolding(crate::specs::Reading::first_form))]
fn whole(alloc: Global, source: &[u8]) -> Result<FirstForm, FormRefusal>
    requires { length source.now + 1 < 2 ^ 32 }
    ensures ok { IfOk result (λ form. first_form source.now ≡ Some form) }
    ensures form { IsErrOf result FormRefusal.Form → first_form source.now ≡ None }
{
    let at = Rest {
        bytes: source,
        line: 1,
    };
    let (main_line, at) = head(at).ok_or(FormRefusal::Form)?;
    let (puts, at) = puts(alloc, at)?;
    let (return_line, status, end_line) = tail(at).ok_or(FormRefusal::Form)?;
    Ok(FirstForm {
        main_line,
        puts,
        return_line,
        status,
        end_line,
    })
}

/// `int main(void) {`, and the line of the name.
#[tactic(auto, unfolding(crate::specs::Reading::head))]
fn head(at: Rest<'_>) -> Option<(u32, Rest<'_>)>
    ensures { seen result ≡ head (place_of at.entry) }
{
    let (_, at) = token(at, b"int")?;
    let at = space(at)?;
    let (main_line, at) = token(at, b"main")?;
    let (_, at) = token(at, b"(")?;
    let (_, at) = token(at, b"void")?;
    let (_, at) = token(at, b")")?;
    let (_, at) = token(at, b"{")?;
    Some((main_line, at))
}

/// The statements `putchar(D);` that stand there, up to the limit.
#[tactic(auto, unfolding(crate::specs::Reading::puts))]
fn puts(alloc: Global, at: Rest<'_>) -> Result<(Items<PutConstant>, Rest<'_>), AllocError>
    ensures { IfOk result (λ x. (x.0, place_of x.1) ≡ puts 20000 (place_of at.entry)) }
{
    let mut puts = Items::new(alloc);
    let mut rest = at;
    for _ in 0..MOST_PUTS {
        let Some((constant, after)) = put(rest) else {
            break;
        };
        puts.push(constant)?;
        rest = after;
    }
    Ok((puts, rest))
}

/// `putchar(D);`
#[tactic(auto, unfolding(crate::specs::Reading::put))]
fn put(at: Rest<'_>) -> Option<(PutConstant, Rest<'_>)>
    ensures { seen result ≡ put (place_of at.entry) }
{
    let (name_line, at) = token(at, b"putchar")?;
    let (paren_line, at) = token(at, b"(")?;
    let (constant, at) = constant(at)?;
    let (_, at) = token(at, b")")?;
    let (_, at) = token(at, b";")?;
    let put = PutConstant {
        name_line,
        paren_line,
        constant,
    };
    Some((put, at))
}

/// `return D; }` up to the end: the line of the word, the constant, and the line of the brace.
#[tactic(auto, unfolding(crate::specs::Reading::tail))]
fn tail(at: Rest<'_>) -> Option<(u32, Constant, u32)>
    ensures { result ≡ tail (place_of at.entry) }
{
    let (return_line, at) = token(at, b"return")?;
    let at = space(at)?;
    let (status, at) = constant(at)?;
    let (_, at) = token(at, b";")?;
    let (end_line, at) = token(at, b"}")?;
    let at = skip_blanks(at);
    at.bytes
        .is_empty()
        .then_some((return_line, status, end_line))
}

/// A constant behind the blanks.
#[tactic(auto, using(crate::proofs::Digits::front_digits), unfolding(crate::specs::Reading::constant))]
fn constant(at: Rest<'_>) -> Option<(Constant, Rest<'_>)>
    ensures { seen result ≡ constant (place_of at.entry) }
{
    let Rest { bytes, line } = skip_blanks(at);
    let (digits, bytes) = bytes.split_at(digit_count(bytes));
    let value = value_of(digits)?;
    Some((Constant { value, line }, Rest { bytes, line }))
}

/// How many digits stand at the front.
fn digit_count(bytes: &[u8]) -> usize
    ensures count { result ≡ prefix_len is_ascii_digit bytes.now }
    ensures within { result ≤ length bytes.now }
{
    bytes
        .iter()
        .take_while(|byte| byte.is_ascii_digit())
        .count()
}

/// The value of a constant with these digits.
#[tactic(auto, unfolding(crate::specs::Reading::value_of))]
fn value_of(digits: &[u8]) -> Option<u32>
    requires { AllDigits 10 digits.now }
    ensures { result ≡ value_of digits.now }
{
    if digits.len() > 1 && digits[0] == b'0' {
        return None;
    }
    let text = str::from_utf8(digits).ok()?;
    let value = text.parse().ok()?;
    (value <= MOST).then_some(value)
}

/// A word behind the blanks, and its line.
#[tactic(auto, unfolding(crate::specs::Reading::token))]
fn token<'a>(at: Rest<'a>, word: &[u8]) -> Option<(u32, Rest<'a>)>
    ensures { seen result ≡ token word.now (place_of at.entry) }
{
    let Rest { bytes, line } = skip_blanks(at);
    let bytes = bytes.strip_prefix(word)?;
    Some((line, Rest { bytes, line }))
}

/// The same place, where a blank stands there.
#[tactic(auto, unfolding(crate::specs::Reading::space))]
fn space(at: Rest<'_>) -> Option<Rest<'_>>
    ensures { option_map place_of result ≡ space (place_of at.entry) }
{
    match at.bytes {
        [first, ..] if is_blank(*first) => Some(at),
        _ => None,
    }
}

/// What follows the blanks at the front.
#[tactic(auto, unfolding(crate::specs::Reading::skip_blanks))]
fn skip_blanks(at: Rest<'_>) -> Rest<'_>
    ensures { place_of result ≡ skip_blanks (place_of at.entry) }
{
    let mut line = at.line;
    let mut bytes = at.bytes;
    while let [first, rest @ ..] = bytes {
        if !is_blank(*first) {
            break;
        }
        if *first == b'\n' {
            line += 1;
        }
        bytes = rest;
    }
    Rest { bytes, line }
}

/// Space, tab, line feed or carriage return.
fn is_blank(byte: u8) -> bool
    ensures { result ≡ is_blank byte }
{
    matches!(byte, b' ' | b'\t' | b'\n' | b'\r')
}
