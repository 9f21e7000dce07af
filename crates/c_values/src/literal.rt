ghost use Rattle.std.specs.Prelude.{List};
ghost use Rattle.c_types.specs.declared.type_ref.Row.{Row};
ghost use Rattle.typing_rules.specs.Terms as terms;
ghost use Rattle.typing_rules.specs.DeclarationRules as declarations;
ghost use Rattle.typing_rules.specs.Checking.{pure};
ghost use Rattle.c_values.specs.Stand.{Makes, MeansTyped, MeansWritten};
ghost use Rattle.c_values.specs.Answers.{Answers, MeansTerm, AreWritten, OverWritten};

use crate::convert::converted_from;
use crate::made::{make, or_memory, result_of};
use crate::typed::{Term, Typed, Written};
use c_typed::{Constant, ValueNode};
use c_types::TypeRef;
use srmt_base::{Ty, convert};
use std::alloc::{AllocError, Global};
use typing_rules::TypeRefusal;

/// A constant of an integer type, modulo 2^32 (C11 6.4.4).
pub fn number_term(alloc: Global, line: u32, ty: Ty, number: u32) -> Result<Term, TypeRefusal>
    ensures { (rows : List Row) → Answers (MeansTerm rows) result (pure (terms.result (terms.number_value line ty number))) }
{
    result_of(number_value(alloc, line, ty, number))
}

/// The 1 that `++` adds.
pub fn one_value(alloc: Global, line: u32) -> Result<Written, TypeRefusal>
    ensures { (rows : List Row) → Answers (MeansWritten rows) result (pure (terms.one_value line)) }
{
    let typed = or_memory(number_value(alloc, line, Ty::Int, 1))?;
    Ok(Written { first: line, typed })
}

/// A byte of a text as a constant of type `char`, converted to an element's type (C11 6.7.9p14).
pub fn byte_value(alloc: Global, line: u32, ty: Ty, byte: u8) -> Result<Typed, TypeRefusal>
    ensures { (rows : List Row) → Answers (MeansTyped rows) result (pure (declarations.byte_value line ty byte)) }
{
    or_memory(byte_of(alloc, line, ty, byte))
}

/// A constant of an integer type, modulo 2^32 (C11 6.4.4).
pub fn number_value(alloc: Global, line: u32, ty: Ty, number: u32) -> Result<Typed, AllocError>
    ensures { (rows : List Row) → Makes rows result (terms.number_value line ty number) }
{
    let constant = Constant::Value(u64::from(number));
    make(
        alloc,
        line,
        TypeRef::Integer(ty),
        ValueNode::Constant(number),
        constant,
    )
}

/// A byte as a constant of type `char`, converted to an element's type.
fn byte_of(alloc: Global, line: u32, ty: Ty, byte: u8) -> Result<Typed, AllocError>
    ensures { (rows : List Row) → Makes rows result (declarations.byte_value line ty byte) }
{
    let number = convert(Ty::Char, Ty::Char, u64::from(byte));
    let typed = number_value(alloc, line, Ty::Char, number as u32)?;
    let first = line;
    converted_from(alloc, Ty::Char, ty, Written { first, typed })
}
