ghost use Rattle.std.specs.Prelude.{◌≡◌, ℕ, [], ◌∷◌, ◌++◌, OnOk, OnErr};
ghost use Rattle.c_types.specs.Types.{CType};
ghost use Rattle.c_types.specs.Table.{Stands};
ghost use Rattle.c_typed.specs.Typed as tree;
ghost use Rattle.typing_rules.specs.Terms as terms;
ghost use Rattle.typing_rules.specs.declared.refusal.TypeRefusal.TheVariants as refusal;
ghost use Rattle.typing_rules.specs.SourceViews.{expr_view};
ghost use Rattle.typing_rules.specs.OrderedDeclarations.{scalar_cells};
ghost use Rattle.c_values.specs.Stand.{MeansTyped, MeansWritten};
ghost use Rattle.c_known.specs.Views.{line_in};
ghost use Rattle.c_declarations.specs.Cells.{counted, Adds, scalar_cell, converted_cell};

use c_known::{File, Known};
use c_starts::start_of;
use c_terms::value_of;
use c_tree::Expr;
use c_typed::{Cell, Value};
use c_types::TypeRef;
use c_values::{Typed, Written, converted_to};
use typing_rules::TypeRefusal;

/// The object that is initialized: its file, whether it is static, and the line of its declared name.
#[derive(Clone, Copy, Debug)]
pub(crate) struct Object {
    pub file: File,
    pub is_static: bool,
    pub at: u32,
}

/// Adds a cell behind others.
pub(crate) fn add_cell(cells: &mut Vec<Cell>, index: u32, value: Value) -> Result<(), TypeRefusal>
    ensures added { OnOk result (cells.new.items ≡ cells.old.items ++ record { index = index; value = value } ∷ []) }
    ensures memory { OnErr result (result ≡ Err refusal.Memory) }
{
    match cells.push(Cell { index, value }) {
        Ok(()) => Ok(()),
        Err(_) => Err(TypeRefusal::Memory),
    }
}

/// Adds the cell of a scalar's value. Where the object is static, the value is a constant (C11 6.7.9p4).
fn add_scalar(
    known: &Known,
    object: Object,
    index: u32,
    value: Typed,
    cells: &mut Vec<Cell>,
) -> Result<(), TypeRefusal>
    ensures { (v : tree.Value) (i : ℕ) → MeansTyped known.now.types value v → index ≡ counted i
        → Adds cells.old.items cells.new.items known.now known.now result (scalar_cell object.is_static object.at i v) }
{
    if object.is_static && start_of(&known.types, value.value.get()).is_none() {
        Err(TypeRefusal::Mismatch(object.at, 16))
    } else {
        add_cell(cells, index, value.value.into_inner())
    }
}

/// Adds the cell of an operand that is converted as by assignment (C11 6.7.9p11).
fn add_converted(
    known: &Known,
    object: Object,
    ty: TypeRef,
    index: u32,
    a: Written,
    cells: &mut Vec<Cell>,
) -> Result<(), TypeRefusal>
    ensures { (t : CType) (w : terms.Written) (i : ℕ) → Stands known.now.types ty t → MeansWritten known.now.types a w → index ≡ counted i
        → Adds cells.old.items cells.new.items known.now known.now result (converted_cell object.is_static object.at t i w) }
{
    match converted_to(known.alloc, &known.types, object.at, ty, a) {
        Ok(value) => add_scalar(known, object, index, value, cells),
        Err(refusal) => Err(refusal),
    }
}

/// Adds the cell of a scalar of a type (C11 6.7.9p11).
pub(crate) fn add_value(
    known: &mut Known,
    object: Object,
    ty: TypeRef,
    index: u32,
    e: &Expr,
    cells: &mut Vec<Cell>,
) -> Result<(), TypeRefusal>
    ensures { (t : CType) (i : ℕ) → Stands known.old.types ty t → index ≡ counted i
        → Adds cells.old.items cells.new.items known.old known.new result
        (scalar_cells object.is_static object.at t i (expr_view (line_in object.file) e.now)) }
{
    match value_of(known, object.file, e) {
        Ok(a) => add_converted(known, object, ty, index, a, cells),
        Err(refusal) => Err(refusal),
    }
}
