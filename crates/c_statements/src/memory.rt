ghost use Rattle.std.specs.Prelude.{◌≡◌, [], ◌∷◌, ◌++◌, IfOk, IfErr, OnOk, Ok};
ghost use Rattle.typing_rules.specs.declared.refusal.TypeRefusal.TheVariants.{Memory};

use sqlite_items::{Boxed, Items};
use std::alloc::{AllocError, Global};
use typing_rules::TypeRefusal;

/// What was made, or want of memory as a refusal.
fn or_memory<T>(made: Result<T, AllocError>) -> Result<T, TypeRefusal>
    ensures made { IfOk result (λ x. made ≡ Ok x) }
    ensures memory { IfErr result (λ e. e ≡ Memory) }
{
    match made {
        Ok(value) => Ok(value),
        Err(_) => Err(TypeRefusal::Memory),
    }
}

/// A value on the heap.
pub(crate) fn boxed<T: Drop>(alloc: Global, value: T) -> Result<Boxed<T>, TypeRefusal>
    ensures made { IfOk result (λ b. b ≡ value) }
    ensures memory { IfErr result (λ e. e ≡ Memory) }
{
    or_memory(Boxed::new(alloc, value))
}

/// One more item.
pub(crate) fn push<T: Drop>(items: &mut Items<T>, item: T) -> Result<(), TypeRefusal>
    ensures pushed { OnOk result (items.new ≡ items.old ++ item ∷ []) }
    ensures memory { IfErr result (λ e. e ≡ Memory) }
{
    or_memory(items.push(item))
}
