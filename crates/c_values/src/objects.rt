ghost use Rattle.std.specs.Prelude.{◌<◌, List, IfSome};
ghost use Rattle.c_types.specs.Types.{CType, unqualified};
ghost use Rattle.c_types.specs.Table.{Extends, Stands};
ghost use Rattle.c_types.specs.declared.type_ref.Row.{Row};
ghost use Rattle.c_typed.specs.Typed as tree;
ghost use Rattle.typing_rules.specs.Terms as terms;
ghost use Rattle.typing_rules.specs.Checking.{pure};
ghost use Rattle.c_values.specs.Answers.{Answers, MeansTerm, MeansNode, OverTyped, OverQualified};

use crate::made::or_memory;
use crate::typed::{Designated, Term, Typed};
use c_typed::{Place, PlaceNode};
use c_types::{QualifiedRef, Qualifiers, TypeRef, Types};
use sqlite_items::Boxed;
use srmt_base::Ty;
use std::alloc::Global;
use typing_rules::TypeRefusal;

/// No qualifiers.
const PLAIN: Qualifiers = Qualifiers {
    is_const: false,
    is_volatile: false,
};

/// A local, by its number in the function's table.
pub fn local_term(
    alloc: Global,
    line: u32,
    ty: QualifiedRef,
    number: u32,
) -> Result<Term, TypeRefusal>
    ensures { (rows : List Row) → OverQualified rows ty (λ q. Answers (MeansTerm rows) result (pure (terms.object (tree.place line q (tree.local number))))) }
{
    object(alloc, line, ty, PlaceNode::Local(number))
}

/// What the name of an entity is: a function designator or an object.
pub fn linked_term(
    alloc: Global,
    types: &Types,
    line: u32,
    number: u32,
    ty: QualifiedRef,
    is_main: bool,
) -> Result<Term, TypeRefusal>
    ensures { OverQualified types.now ty (λ q. Answers (MeansTerm types.now) result (pure (terms.linked_term line number q is_main))) }
{
    if types.is_function(ty.target) {
        let of = Designated::Entity(number, is_main);
        Ok(Term::Designator(line, of, ty.target))
    } else {
        object(alloc, line, ty, PlaceNode::Static(number))
    }
}

/// A text of so many bytes, by its number in the file: an array of `char`, with its final 0 (C11 6.4.5p6).
pub fn text_object(
    alloc: Global,
    types: &mut Types,
    line: u32,
    length: u32,
    number: u32,
) -> Result<Term, TypeRefusal>
    requires { length < 65535 }
    ensures kept { Extends types.old types.new }
    ensures term { Answers (MeansTerm types.new) result (pure (terms.object (tree.place line (terms.text_type length) (tree.text number)))) }
{
    let element = QualifiedRef {
        qualifiers: PLAIN,
        target: TypeRef::Integer(Ty::Char),
    };
    let array = or_memory(types.array_of(element, Some(length + 1)))?;
    text_of(alloc, line, array, number)
}

/// What `*` gives: a function designator or an object (C11 6.5.3.2p4).
pub fn pointed_term(
    alloc: Global,
    types: &Types,
    line: u32,
    pointer: Typed,
    to: QualifiedRef,
) -> Result<Term, TypeRefusal>
    ensures { OverQualified types.now to (λ q. OverTyped types.now pointer (λ v.
        Answers (MeansTerm types.now) result (pure (terms.pointed_term line v q)))) }
{
    if types.is_function(to.target) {
        let of = Designated::Through(pointer);
        Ok(Term::Designator(line, of, to.target))
    } else {
        object(alloc, line, to, PlaceNode::Pointed(pointer.value))
    }
}

/// A text, whose array is of a type, if there is such a type.
fn text_of(
    alloc: Global,
    line: u32,
    array: Option<TypeRef>,
    number: u32,
) -> Result<Term, TypeRefusal>
    ensures { (rows : List Row) (t : CType) → IfSome array (λ r. Stands rows r t)
        → Answers (MeansTerm rows) result (pure (terms.object (tree.place line (unqualified t) (tree.text number)))) }
{
    match array {
        None => Err(TypeRefusal::Memory),
        Some(target) => {
            let ty = QualifiedRef {
                qualifiers: PLAIN,
                target,
            };
            object(alloc, line, ty, PlaceNode::Text(number))
        }
    }
}

/// An lvalue, with the line of its first token and its type.
pub fn object(
    alloc: Global,
    line: u32,
    ty: QualifiedRef,
    node: PlaceNode,
) -> Result<Term, TypeRefusal>
    ensures { (rows : List Row) (n : tree.PlaceNode) → OverQualified rows ty (λ q.
        MeansNode rows node n → Answers (MeansTerm rows) result (pure (terms.object (tree.place line q n)))) }
{
    match Boxed::new(alloc, Place { line, ty, node }) {
        Ok(place) => Ok(Term::Object(place)),
        Err(_) => Err(TypeRefusal::Memory),
    }
}
