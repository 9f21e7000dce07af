ghost use Rattle.std.specs.Prelude.{◌≡◌, List, [], ◌∷◌, ◌++◌, map, IfOk};
ghost use Rattle.c_types.specs.Types.{CType, parameters_of};
ghost use Rattle.c_types.specs.Table.{Stands};
ghost use Rattle.c_typed.specs.Typed as tree;
ghost use Rattle.typing_rules.specs.Terms as terms;
ghost use Rattle.c_values.specs.Stand.{MeansWritten};
ghost use Rattle.c_values.specs.Answers.{Answers, AreWritten, MeanValues};
ghost use Rattle.c_operators.specs.Arguments.{passed_after, value_after, value_in};

use c_typed::Value;
use c_types::{TypeRef, Types};
use c_values::{Written, converted_to, or_memory, value_of};
use sqlite_items::{Boxed, Items};
use std::alloc::{AllocError, Global};
use typing_rules::TypeRefusal;

/// The values of operands.
pub(crate) fn values_of(
    alloc: Global,
    operands: Vec<Written>,
) -> Result<Items<Boxed<Value>>, AllocError>
    ensures { IfOk result (λ r. r ≡ map value_in operands.items) }
{
    let mut found = Items::new(alloc);
    for operand in operands {
        found.push(value_of(operand.typed))?;
    }
    Ok(found)
}

/// One more argument behind others, converted to the type of its parameter.
fn with_argument(
    alloc: Global,
    types: &Types,
    at: u32,
    parameter: TypeRef,
    found: Items<Boxed<Value>>,
    a: Written,
) -> Result<Items<Boxed<Value>>, TypeRefusal>
    ensures { (t : CType) (w : terms.Written) (vs : tree.Values) → Stands types.now parameter t → MeansWritten types.now a w → MeanValues types.now found vs
        → Answers (MeanValues types.now) result (value_after at vs t w) }
{
    let value = converted_to(alloc, types, at, parameter, a)?;
    or_memory(appended(found, value_of(value)))
}

/// Values, and one more behind them.
fn appended(
    found: Items<Boxed<Value>>,
    value: Boxed<Value>,
) -> Result<Items<Boxed<Value>>, AllocError>
    ensures { IfOk result (λ r. r ≡ found ++ value ∷ []) }
{
    let mut found = found;
    found.push(value)?;
    Ok(found)
}

/// Arguments behind others, each converted to the type of its parameter (C11 6.5.2.2p7). There are at most 16.
pub(crate) fn passed(
    alloc: Global,
    types: &Types,
    at: u32,
    ty: TypeRef,
    found: Items<Boxed<Value>>,
    arguments: Items<Written>,
) -> Result<Items<Boxed<Value>>, TypeRefusal>
    ensures { (t : CType) (ws : List terms.Written) (vs : tree.Values) → Stands types.now ty t → AreWritten types.now arguments ws
        → MeanValues types.now found vs
        → Answers (MeanValues types.now) result (passed_after at vs (parameters_of t) ws) }
{
    let mut arguments = arguments;
    match types.first_parameter(ty) {
        None => {
            if arguments.is_empty() {
                Ok(found)
            } else {
                Err(TypeRefusal::Mismatch(at, 11))
            }
        }
        Some((parameter, rest)) => {
            if arguments.is_empty() {
                return Err(TypeRefusal::Mismatch(at, 11));
            }
            let found = with_argument(alloc, types, at, parameter, found, arguments.remove(0))?;
            passed(alloc, types, at, rest, found, arguments)
        }
    }
}
