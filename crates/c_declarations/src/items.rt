ghost use Rattle.std.specs.Prelude.{◌≡◌, ℕ, map};
ghost use Rattle.c_types.specs.Types.{CType};
ghost use Rattle.c_types.specs.Table.{Stands};
ghost use Rattle.typing_rules.specs.DeclarationRules as rule;
ghost use Rattle.typing_rules.specs.SourceViews.{expr_view, initial_view, initials_from};
ghost use Rattle.typing_rules.specs.OrderedDeclarations.{single_cells, cells_given, items_given};
ghost use Rattle.c_known.specs.Views.{line_in};
ghost use Rattle.c_declarations.specs.Cells.{counted, Adds, item_given};

use crate::scalar::{Object, add_value};
use crate::shape::{misshapen, misshapen_value};
use crate::text::{Elements, add_text_given};
use c_known::Known;
use c_tree::{Expr, Initializer};
use c_typed::Cell;
use c_types::{Shape, TypeRef};
use typing_rules::TypeRefusal;

/// Adds the cells of an object of a type that is initialized by an expression.
fn add_single(
    known: &mut Known,
    object: Object,
    ty: TypeRef,
    index: u32,
    e: &Expr,
    cells: &mut Vec<Cell>,
) -> Result<(), TypeRefusal>
    ensures { (t : CType) (i : ℕ) → Stands known.old.types ty t → index ≡ counted i
        → Adds cells.old.items cells.new.items known.old known.new result
        (single_cells object.is_static object.at t i (expr_view (line_in object.file) e.now)) }
{
    match known.types.shape(ty) {
        Shape::Array(element, length, _) => {
            let ty = element.target;
            add_text_given(known, object, Elements { ty, length, index }, e, cells)
        }
        Shape::Returning(_) => misshapen_value(known, object, e),
        Shape::Taking(_, _) => misshapen_value(known, object, e),
        Shape::Void => add_value(known, object, ty, index, e, cells),
        Shape::Integer(_) => add_value(known, object, ty, index, e, cells),
        Shape::Pointer(_) => add_value(known, object, ty, index, e, cells),
    }
}

/// Whether an array of a length has no item of a number.
fn is_past(length: Option<u32>, number: usize) -> bool
    ensures { result ≡ rule.is_past length number }
{
    match length {
        None => false,
        Some(n) => n as usize <= number,
    }
}

/// Adds the cells of an object of a type, which starts at a cell (C11 6.7.9).
#[cycle(cells)]
pub(crate) fn add_cells(
    known: &mut Known,
    object: Object,
    ty: TypeRef,
    index: u32,
    x: &Initializer,
    cells: &mut Vec<Cell>,
) -> Result<(), TypeRefusal>
    ensures { (t : CType) (i : ℕ) → Stands known.old.types ty t → index ≡ counted i
        → Adds cells.old.items cells.new.items known.old known.new result
        (cells_given object.is_static object.at t i (initial_view (line_in object.file) x.now)) }
{
    match x {
        Initializer::Value(e) => add_single(known, object, ty, index, e.get(), cells),
        Initializer::List(_, items) => match known.types.shape(ty) {
            Shape::Array(element, length, _) => {
                let ty = element.target;
                add_items(
                    known,
                    object,
                    Elements { ty, length, index },
                    items.as_slice(),
                    cells,
                )
            }
            Shape::Void => misshapen(known, object, x),
            Shape::Integer(_) => misshapen(known, object, x),
            Shape::Pointer(_) => misshapen(known, object, x),
            Shape::Returning(_) => misshapen(known, object, x),
            Shape::Taking(_, _) => misshapen(known, object, x),
        },
    }
}

/// Adds the cells of an item of an array by its number, whose first is the first of the elements here.
#[cycle(cells)]
fn add_item(
    known: &mut Known,
    object: Object,
    elements: Elements,
    number: usize,
    x: &Initializer,
    cells: &mut Vec<Cell>,
) -> Result<(), TypeRefusal>
    ensures { (t : CType) (i : ℕ) → Stands known.old.types elements.ty t → elements.index ≡ counted i
        → Adds cells.old.items cells.new.items known.old known.new result
        (item_given object.is_static object.at t elements.length number i (initial_view (line_in object.file) x.now)) }
{
    if is_past(elements.length, number) {
        misshapen(known, object, x)
    } else {
        add_cells(known, object, elements.ty, elements.index, x, cells)
    }
}

/// Adds the cells of the items of an array, in order.
#[cycle(cells)]
fn add_items(
    known: &mut Known,
    object: Object,
    elements: Elements,
    items: &[Initializer],
    cells: &mut Vec<Cell>,
) -> Result<(), TypeRefusal>
    ensures { (t : CType) (i : ℕ) → Stands known.old.types elements.ty t → elements.index ≡ counted i
        → Adds cells.old.items cells.new.items known.old known.new result
        (items_given object.is_static object.at t elements.length 0 i (initials_from (map (initial_view (line_in object.file)) items.now))) }
{
    let size = known.types.size(elements.ty).cells;
    let mut index = elements.index;
    let mut number = 0;
    for item in items {
        match add_item(
            known,
            object,
            Elements { index, ..elements },
            number,
            item,
            cells,
        ) {
            Ok(()) => {}
            Err(refusal) => return Err(refusal),
        }
        index = index.saturating_add(size);
        number += 1;
    }
    Ok(())
}
