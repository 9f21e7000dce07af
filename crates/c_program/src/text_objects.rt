ghost use Rattle.std.specs.Prelude.{◌≡◌, IfOk, IfErr, OnOk, ◌++◌, ◌∷◌, []};
ghost use Rattle.typing_rules.specs.declared.refusal.TypeRefusal.TheVariants.{Memory};
ghost use Rattle.typing_rules.specs.Checking.{asks};
ghost use Rattle.c_known.specs.Gives.{Gives, IsSame};

use c_known::Known;
use c_typed::TextObject;
use sqlite_items::Items;
use std::alloc::{AllocError, Global};
use typing_rules::TypeRefusal;

/// A copy of a text.
fn copy_of(alloc: Global, text: &TextObject) -> Result<TextObject, AllocError>
    ensures { IfOk result (λ copy. copy ≡ text.now) }
{
    Ok(TextObject {
        line: text.line,
        bytes: Items::from_slice(alloc, text.bytes.as_slice())?,
    })
}

/// A copy of a text stands behind the others.
fn add_copy(
    made: &mut Items<TextObject>,
    alloc: Global,
    text: &TextObject,
) -> Result<(), TypeRefusal>
    ensures added { OnOk result (made.new ≡ made.old ++ text.now ∷ []) }
    ensures memory { IfErr result (λ e. e ≡ Memory) }
{
    match copy_of(alloc, text) {
        Ok(copy) => match made.push(copy) {
            Ok(()) => Ok(()),
            Err(_) => Err(TypeRefusal::Memory),
        },
        Err(_) => Err(TypeRefusal::Memory),
    }
}

/// The texts of the file, in the order of their appearance.
pub fn texts(known: &Known) -> Result<Items<TextObject>, TypeRefusal>
    ensures { Gives IsSame known.now known.now result (asks (λ k. k.texts)) }
{
    let mut made = Items::new(known.alloc);
    for text in known.texts.as_slice() {
        add_copy(&mut made, known.alloc, text)?;
    }
    Ok(made)
}
