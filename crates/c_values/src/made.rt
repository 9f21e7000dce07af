ghost use Rattle.std.specs.Prelude.{◌≡◌, List, IfOk};
ghost use Rattle.c_types.specs.declared.type_ref.Row.{Row};
ghost use Rattle.c_typed.specs.Typed as tree;
ghost use Rattle.typing_rules.specs.Terms as terms;
ghost use Rattle.typing_rules.specs.Checking.{pure};
ghost use Rattle.c_values.specs.Stand.{IsMade, IsOrMemory, Makes};
ghost use Rattle.c_values.specs.Answers.{Answers, MeansTerm};

use crate::typed::{Term, Typed};
use c_typed::{Constant, Value, ValueNode};
use c_types::TypeRef;
use sqlite_items::Boxed;
use std::alloc::{AllocError, Global};
use typing_rules::TypeRefusal;

/// A value of a type, with the line of its first token, and what it is as a constant.
pub fn make(
    alloc: Global,
    line: u32,
    ty: TypeRef,
    node: ValueNode,
    constant: Constant,
) -> Result<Typed, AllocError>
    ensures { IfOk result (λ r. IsMade r line ty node constant) }
{
    let value = Boxed::new(alloc, Value { line, ty, node })?;
    Ok(Typed { value, constant })
}

/// Want of memory as a refusal.
pub fn or_memory<T>(made: Result<T, AllocError>) -> Result<T, TypeRefusal>
    ensures { IsOrMemory result made }
{
    match made {
        Ok(made) => Ok(made),
        Err(_) => Err(TypeRefusal::Memory),
    }
}

/// A value that was made, as what an expression is.
pub fn result_of(made: Result<Typed, AllocError>) -> Result<Term, TypeRefusal>
    ensures { (rows : List Row) (v : tree.Value) → Makes rows made v → Answers (MeansTerm rows) result (pure (terms.result v)) }
{
    match made {
        Ok(value) => Ok(Term::Result(value)),
        Err(_) => Err(TypeRefusal::Memory),
    }
}

/// The value alone.
pub fn value_of(of: Typed) -> Boxed<Value>
    ensures { result ≡ of.value }
{
    of.value
}
