ghost use Rattle.std.specs.Prelude.{◌≡◌, List, map, OnOk, IfOk};
ghost use Rattle.c_types.specs.declared.type_ref.TypeRef.{TypeRef as Reference};
ghost use Rattle.c_types.specs.Types.{CType};
ghost use Rattle.c_types.specs.Table.{type_at};
ghost use Rattle.c_typed.specs.StatementViews.{function_view};
ghost use Rattle.lower.specs.Programs.{all_types, type_of_function};
ghost use Rattle.lower.specs.Functions.{AreTypes};

use crate::inside::kind_of;
use c_typed::Function;
use c_types::{TypeRef, Types};
use indexmap::IndexSet;
use mid_code::FunType;
use sqlite_items::Items;
use std::alloc::{AllocError, Global};

/// The types of functions are added, each once, in order.
pub(crate) fn add_types(
    known: &mut IndexSet<TypeRef>,
    types: &Types,
    functions: &[Function],
) -> Result<(), AllocError>
    ensures { OnOk result ((before : List CType) → AreTypes types.now known.old.keys before
        → AreTypes types.now known.new.keys (all_types before (map (function_view (type_at types.now)) functions.now))) }
{
    for function in functions {
        known.insert_full(types.reference(function.ty))?;
    }
    Ok(())
}

/// A type of functions as middle code knows it.
fn fun_type(alloc: Global, types: &Types, of: TypeRef) -> Result<FunType, AllocError>
    ensures { IfOk result (λ found. found ≡ type_of_function (type_at types.now of)) }
{
    let mut params = Vec::new(alloc);
    let mut rest = of;
    while let Some((first, others)) = types.first_parameter(rest) {
        params.push(kind_of(types, first))?;
        rest = others;
    }
    Ok(FunType {
        params: Items::from_vec(params),
        result: kind_of(types, types.result(of)),
    })
}

/// The types of functions of a program, in order.
pub(crate) fn fun_types(
    alloc: Global,
    types: &Types,
    known: &IndexSet<TypeRef>,
) -> Result<Items<FunType>, AllocError>
    ensures { IfOk result (λ found. found ≡ map type_of_function (map (type_at types.now) known.now.keys)) }
{
    let mut found = Vec::with_capacity(alloc, known.len())?;
    for of in known {
        found.push(fun_type(alloc, types, *of)?)?;
    }
    Ok(Items::from_vec(found))
}
