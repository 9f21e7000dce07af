ghost use Rattle.std.specs.Prelude.{◌≡◌, ℕ, Some, None, option_map};
ghost use Rattle.c_types.specs.Types.{CType, array};
ghost use Rattle.c_types.specs.Table.{type_at, Stands};
ghost use Rattle.typing_rules.specs.DeclarationRules as rule;
ghost use Rattle.typing_rules.specs.SourceViews.{initial_view};
ghost use Rattle.c_known.specs.Views.{line_in};
ghost use Rattle.c_known.specs.Gives.{Gives};
ghost use Rattle.c_declarations.specs.Cells.{counted as counted_to, type_sized};

use crate::scalar::Object;
use crate::text::text_for;
use c_known::Known;
use c_tree::Initializer;
use c_types::{QualifiedRef, Shape, TypeRef, Types};
use typing_rules::{Size, TypeRefusal};

const MOST_CELLS: u32 = 65_535;

/// A number of elements; the count stands still at the end of its type.
fn counted(number: usize) -> u32
    ensures { result ≡ counted_to number }
{
    if number < u32::MAX as usize {
        number as u32
    } else {
        u32::MAX
    }
}

/// The length that an initializer gives an array of elements of a type (C11 6.7.9p22).
fn length_given(types: &Types, element: TypeRef, x: &Initializer) -> Option<u32>
    ensures { (shift : ℕ → ℕ) → result ≡ option_map counted_to (rule.length_given (type_at types.now element) (initial_view shift x.now)) }
{
    match x {
        Initializer::Value(e) => match text_for(types, element, e.get()) {
            None => None,
            Some(bytes) => Some(counted(bytes.len()).saturating_add(1)),
        },
        Initializer::List(_, items) => Some(counted(items.len())),
    }
}

/// A type of at most 65,535 cells.
fn sized(known: &Known, object: Object, ty: TypeRef) -> Result<TypeRef, TypeRefusal>
    ensures { (t : CType) → Stands known.now.types ty t → Gives Stands known.now known.now result (type_sized object.at t) }
{
    if known.types.size(ty).cells <= MOST_CELLS {
        Ok(ty)
    } else {
        Err(TypeRefusal::TooLarge(object.at, Size::Cells))
    }
}

/// An array of a length that is counted; memory has no room for one whose count stands still.
fn of_length(
    known: &mut Known,
    object: Object,
    element: QualifiedRef,
    length: u32,
) -> Result<TypeRef, TypeRefusal>
    ensures { (n : ℕ) → length ≡ counted_to n
        → Gives Stands known.old known.new result (type_sized object.at (array element.qualifiers (type_at known.old.types element.target) (Some n))) }
{
    if length == u32::MAX {
        return Err(TypeRefusal::Memory);
    }
    match known.types.array_of(element, Some(length)) {
        Ok(Some(ty)) => Ok(ty),
        Ok(None) => Err(TypeRefusal::TooLarge(object.at, Size::Cells)),
        Err(_) => Err(TypeRefusal::Memory),
    }
}

/// An array without a length, with the one that its initializer gives.
fn with_length(
    known: &mut Known,
    object: Object,
    ty: TypeRef,
    element: QualifiedRef,
    x: &Initializer,
) -> Result<TypeRef, TypeRefusal>
    ensures { (t : CType) → Stands known.old.types ty t → t ≡ array element.qualifiers (type_at known.old.types element.target) None
        → Gives Stands known.old known.new result (type_sized object.at (rule.completed t (initial_view (line_in object.file) x.now))) }
{
    match length_given(&known.types, element.target, x) {
        None => sized(known, object, ty),
        Some(length) => of_length(known, object, element, length),
    }
}

/// The type that an initializer completes, of at most 65,535 cells (C11 6.7.9p22).
pub(crate) fn completed(
    known: &mut Known,
    object: Object,
    ty: TypeRef,
    x: &Initializer,
) -> Result<TypeRef, TypeRefusal>
    ensures { (t : CType) → Stands known.old.types ty t
        → Gives Stands known.old known.new result (type_sized object.at (rule.completed t (initial_view (line_in object.file) x.now))) }
{
    match known.types.shape(ty) {
        Shape::Array(element, length, _) => match length {
            None => with_length(known, object, ty, element, x),
            Some(_) => sized(known, object, ty),
        },
        Shape::Void => sized(known, object, ty),
        Shape::Integer(_) => sized(known, object, ty),
        Shape::Pointer(_) => sized(known, object, ty),
        Shape::Returning(_) => sized(known, object, ty),
        Shape::Taking(_, _) => sized(known, object, ty),
    }
}
