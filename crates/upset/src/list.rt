ghost use Rattle.std.specs.Prelude.{◌≡◌, List, None, IfOk, IsErrOf};
ghost use Rattle.upset.specs.declared.upset.Upset.{Upset};
ghost use Rattle.upset.specs.Lists.{list_text, IsList};
ghost use Rattle.upset.specs.Reading as reading;
ghost use Rattle.upset.specs.Reading.{Reads};

use crate::reading::{literal, upset};
use crate::upset::Upset;
use srmt_base::Side;
use std::alloc::Global;

/// Why a text gives no list of upsets.
#[derive(Clone, Copy, Debug, PartialEq, Eq)]
pub enum ListRefusal {
    /// It is not the text of a list.
    Bad,
    /// Memory ran out.
    Memory,
}

/// The list of upsets that a text names: one or more, parted by commas, each `SIDE:K:D:R:V` or `SIDE:K:cell:P:V`, with
/// decimal numbers. All are of one side, and their steps do not fall (this project's own).
pub fn read_list(alloc: Global, text: &[u8]) -> Result<Vec<Upset>, ListRefusal>
    ensures found { IfOk result (λ list. IsList list.items × (text.now ≡ list_text list.items)) }
    ensures one { (a b : List Upset) → IsList a → IsList b → list_text a ≡ list_text b → a ≡ b }
    ensures bad { IsErrOf result ListRefusal.Bad
        → (list : List Upset) → IsList list → text.now ≡ list_text list → ⊥ }
{
    whole(alloc, text)
}

/// What is read of a whole text, an upset behind the other.
fn whole(alloc: Global, text: &[u8]) -> Result<Vec<Upset>, ListRefusal>
    ensures found { IfOk result (λ list. Reads None text.now list.items) }
    ensures bad { IsErrOf result ListRefusal.Bad → (list : List Upset) → Reads None text.now list → ⊥ }
{
    let mut list = Vec::new(alloc);
    let mut last = None;
    let mut rest = text;
    loop {
        let Some((next, after)) = upset(rest) else {
            return Err(ListRefusal::Bad);
        };
        if !may_follow(last, next) {
            return Err(ListRefusal::Bad);
        }
        if list.push(next).is_err() {
            return Err(ListRefusal::Memory);
        }
        last = Some(next);
        if after.is_empty() {
            return Ok(list);
        }
        match literal(after, b",") {
            Some(more) => rest = more,
            None => return Err(ListRefusal::Bad),
        }
    }
}

/// Whether an upset may stand behind another: it strikes the same side, at no earlier step.
fn may_follow(last: Option<Upset>, next: Upset) -> bool
    ensures { result ≡ reading.may_follow last next }
{
    match last {
        None => true,
        Some(last) => match (last.side, next.side) {
            (Side::Lead, Side::Lead) | (Side::Trail, Side::Trail) => last.step <= next.step,
            (Side::Lead, Side::Trail) | (Side::Trail, Side::Lead) => false,
        },
    }
}
