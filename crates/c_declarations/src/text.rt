ghost use Rattle.std.specs.Prelude.{◌≡◌, ◌+◌, ℕ, List, [], ◌∷◌, ◌++◌, if◌then◌else◌, length, IfOk, OnErr};
ghost use Rattle.std.specs.Option.{option_copied};
ghost use Rattle.c_types.specs.declared.type_ref.Row.{Row};
ghost use Rattle.c_types.specs.Types.{CType, ty_of};
ghost use Rattle.c_types.specs.Table.{type_at, Stands};
ghost use Rattle.typing_rules.specs.declared.refusal.TypeRefusal.TheVariants as refusal;
ghost use Rattle.typing_rules.specs.DeclarationRules as rule;
ghost use Rattle.typing_rules.specs.SourceViews.{expr_view};
ghost use Rattle.typing_rules.specs.OrderedDeclarations.{text_given};
ghost use Rattle.c_known.specs.Views.{line_in as told_line};
ghost use Rattle.c_declarations.specs.Cells.{counted, Added, Adds, text_on, fitting_text};

use crate::scalar::{Object, add_cell};
use crate::shape::misshapen_value;
use c_known::{Known, line_in};
use c_tree::{Expr, ExprNode};
use c_typed::Cell;
use c_types::{TypeRef, Types};
use c_values::byte_value;
use srmt_base::Ty;
use std::alloc::Global;
use typing_rules::TypeRefusal;

/// The elements of an array: their type, their number if it is known, and the cell of the first.
#[derive(Clone, Copy, Debug)]
pub(crate) struct Elements {
    pub ty: TypeRef,
    pub length: Option<u32>,
    pub index: u32,
}

/// The bytes of a text without parentheses.
fn text_of(e: &Expr) -> Option<&[u8]>
    ensures { (shift : ℕ → ℕ) → text_on (shift e.now.line) (option_copied result) ≡ rule.text_of (expr_view shift e.now) }
{
    match &e.node {
        ExprNode::Text(bytes) => Some(bytes.as_slice()),
        ExprNode::Name(_) => None,
        ExprNode::Number(_, _) => None,
        ExprNode::Character(_) => None,
        ExprNode::Parenthesized(_) => None,
        ExprNode::Index(_, _, _) => None,
        ExprNode::Call(_, _, _) => None,
        ExprNode::Postfix(_, _, _) => None,
        ExprNode::Prefix(_, _) => None,
        ExprNode::SizeofExpr(_) => None,
        ExprNode::SizeofType(_) => None,
        ExprNode::Cast(_, _) => None,
        ExprNode::Binary(_, _, _, _) => None,
        ExprNode::Conditional(_, _, _, _) => None,
        ExprNode::Assign(_, _, _, _) => None,
        ExprNode::Comma(_, _) => None,
    }
}

/// Whether a type is a character type (C11 6.2.5p15).
fn is_character(types: &Types, of: TypeRef) -> bool
    ensures { result ≡ rule.is_character (type_at types.now of) }
{
    types.is_integer(of) && is_character_ty(types.ty(of))
}

/// Whether an integer type is a character type.
fn is_character_ty(ty: Ty) -> bool
    ensures { result ≡ rule.is_character_ty ty }
{
    match ty {
        Ty::Char | Ty::SChar | Ty::UChar => true,
        Ty::Bool | Ty::Short | Ty::UShort | Ty::Int | Ty::UInt => false,
    }
}

/// The bytes of a text by which an array of elements of a type is initialized (C11 6.7.9p14).
pub(crate) fn text_for<'a>(types: &Types, element: TypeRef, e: &'a Expr) -> Option<&'a [u8]>
    ensures { (shift : ℕ → ℕ) → text_on (shift e.now.line) (option_copied result) ≡ rule.text_for (type_at types.now element) (expr_view shift e.now) }
{
    if is_character(types, element) {
        text_of(e)
    } else {
        None
    }
}

/// Adds the cell of a byte.
fn add_byte(
    alloc: Global,
    line: u32,
    ty: Ty,
    index: u32,
    byte: u8,
    cells: &mut Vec<Cell>,
) -> Result<(), TypeRefusal>
    ensures added { (rows : List Row) (i : ℕ) → index ≡ counted i
        → IfOk result (λ x. Added cells.old.items cells.new.items rows x (rule.byte_cells line ty i (byte ∷ []))) }
    ensures memory { OnErr result (result ≡ Err refusal.Memory) }
{
    match byte_value(alloc, line, ty, byte) {
        Ok(value) => add_cell(cells, index, value.value.into_inner()),
        Err(_) => Err(TypeRefusal::Memory),
    }
}

/// Adds the cells of bytes, and gives the index of the cell behind them.
fn add_bytes(
    alloc: Global,
    line: u32,
    ty: Ty,
    first: u32,
    bytes: &[u8],
    cells: &mut Vec<Cell>,
) -> Result<u32, TypeRefusal>
    ensures added { (rows : List Row) (i : ℕ) → first ≡ counted i
        → IfOk result (λ behind. (behind ≡ counted (i + length bytes.now))
        × Added cells.old.items cells.new.items rows tt (rule.byte_cells line ty i bytes.now)) }
    ensures memory { OnErr result (result ≡ Err refusal.Memory) }
{
    let mut index = first;
    for byte in bytes {
        match add_byte(alloc, line, ty, index, *byte, cells) {
            Ok(()) => {}
            Err(refusal) => return Err(refusal),
        }
        index = index.saturating_add(1);
    }
    Ok(index)
}

/// Whether a text's bytes fit into an array.
fn fits(length: Option<u32>, bytes: &[u8]) -> bool
    ensures { result ≡ rule.text_fits length bytes.now }
{
    match length {
        None => true,
        Some(n) => bytes.len() <= n as usize,
    }
}

/// Whether an array has no room for the final 0 of a text.
fn is_full(length: Option<u32>, bytes: &[u8]) -> bool
    ensures { rule.text_cells length bytes.now ≡ (if result then bytes.now else bytes.now ++ 0 ∷ []) }
{
    match length {
        None => false,
        Some(n) => n as usize <= bytes.len(),
    }
}

/// Adds the cells of a text, with a final 0 where there is room.
fn add_text(
    alloc: Global,
    line: u32,
    ty: Ty,
    elements: Elements,
    bytes: &[u8],
    cells: &mut Vec<Cell>,
) -> Result<(), TypeRefusal>
    ensures added { (rows : List Row) (i : ℕ) → elements.index ≡ counted i
        → IfOk result (λ x. Added cells.old.items cells.new.items rows x (rule.byte_cells line ty i (rule.text_cells elements.length bytes.now))) }
    ensures memory { OnErr result (result ≡ Err refusal.Memory) }
{
    match add_bytes(alloc, line, ty, elements.index, bytes, cells) {
        Ok(behind) => {
            if is_full(elements.length, bytes) {
                Ok(())
            } else {
                add_byte(alloc, line, ty, behind, 0, cells)
            }
        }
        Err(refusal) => Err(refusal),
    }
}

/// Adds the cells of a text that fits into the array.
fn add_fitting(
    known: &Known,
    object: Object,
    line: u32,
    elements: Elements,
    bytes: &[u8],
    cells: &mut Vec<Cell>,
) -> Result<(), TypeRefusal>
    ensures { (i : ℕ) → elements.index ≡ counted i
        → Adds cells.old.items cells.new.items known.now known.now result
        (fitting_text object.at (ty_of (type_at known.now.types elements.ty)) elements.length i (record { line = line; bytes = bytes.now })) }
{
    if fits(elements.length, bytes) {
        let ty = known.types.ty(elements.ty);
        add_text(known.alloc, line, ty, elements, bytes, cells)
    } else {
        Err(TypeRefusal::Mismatch(object.at, 16))
    }
}

/// Adds the cells of an array of characters that is initialized by a text; no other expression initializes an array (C11 6.7.9p14).
pub(crate) fn add_text_given(
    known: &mut Known,
    object: Object,
    elements: Elements,
    e: &Expr,
    cells: &mut Vec<Cell>,
) -> Result<(), TypeRefusal>
    ensures { (t : CType) (i : ℕ) → Stands known.old.types elements.ty t → elements.index ≡ counted i
        → Adds cells.old.items cells.new.items known.old known.new result
        (text_given object.at t elements.length i (expr_view (told_line object.file) e.now) (rule.text_for t (expr_view (told_line object.file) e.now))) }
{
    match text_for(&known.types, elements.ty, e) {
        None => misshapen_value(known, object, e),
        Some(bytes) => add_fitting(
            known,
            object,
            line_in(object.file, e.line),
            elements,
            bytes,
            cells,
        ),
    }
}
