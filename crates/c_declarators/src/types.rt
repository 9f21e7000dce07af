ghost use Rattle.std.specs.Prelude.{◌≡◌, ◌||◌, ℕ, List, IfOk, Ok, true, false, map, Option};
ghost use Rattle.c_types.specs.Types.{Qualified, is_array as array_type, is_function as function_of_type, function_of};
ghost use Rattle.c_types.specs.Table.{type_at, qualified_at, Extends, Stands, StandsFor};
ghost use Rattle.typing_rules.specs.Known as known;
ghost use Rattle.typing_rules.specs.DeclaratorRules as rule;
ghost use Rattle.c_declarators.specs.Derivations.{lines_view, array_refusal as refusal_of, array_sized, IsPlain, Derives, DerivesFrom, AreDerivations, MeansDerivation};
ghost use Rattle.c_known.specs.Standing.{MeanLocals};

use crate::derivation::{Derivation, Lines};
use c_known::Local;
use c_types::{QualifiedRef, Qualifiers, TypeRef, Types};
use std::alloc::AllocError;
use typing_rules::{Size, TypeRefusal};

/// The most parameters of a function.
const MOST_PARAMETERS: usize = 16;

const PLAIN: Qualifiers = Qualifiers {
    is_const: false,
    is_volatile: false,
};

/// A type that was made without qualifiers of its own, or want of memory.
fn plain(made: Result<TypeRef, AllocError>) -> Result<QualifiedRef, TypeRefusal>
    ensures { IsPlain result made }
{
    match made {
        Ok(target) => Ok(QualifiedRef {
            qualifiers: PLAIN,
            target,
        }),
        Err(_) => Err(TypeRefusal::Memory),
    }
}

/// A pointer with qualifiers to a type (C11 6.7.6.1).
fn pointed_to(
    types: &mut Types,
    at: Lines,
    qualifiers: Qualifiers,
    to: QualifiedRef,
) -> Result<QualifiedRef, TypeRefusal>
    ensures kept { Extends types.old types.new }
    ensures made { DerivesFrom types.old to types.new result (λ t. rule.pointed_to (lines_view at) qualifiers t) }
{
    if types.is_void(to.target) {
        return Err(TypeRefusal::Mismatch(at.rules, 14));
    }
    match types.pointer_to(to) {
        Ok(target) => Ok(QualifiedRef { qualifiers, target }),
        Err(_) => Err(TypeRefusal::Memory),
    }
}

/// Why a type is no array's element (C11 6.7.6.2p1), if it is none.
fn array_refusal(types: &Types, at: Lines, element: QualifiedRef) -> Option<TypeRefusal>
    ensures { result ≡ refusal_of (lines_view at) (type_at types.now element.target) }
{
    if types.is_function(element.target) {
        Some(TypeRefusal::Mismatch(at.rules, 22))
    } else if types.is_void(element.target) {
        Some(TypeRefusal::Mismatch(at.rules, 14))
    } else if !types.is_complete(element.target) {
        Some(TypeRefusal::Mismatch(at.lengths, 15))
    } else {
        None
    }
}

/// An array of elements that may be ones, with few enough cells.
fn array_with(
    types: &mut Types,
    at: Lines,
    length: Option<u32>,
    element: QualifiedRef,
) -> Result<QualifiedRef, TypeRefusal>
    ensures kept { Extends types.old types.new }
    ensures made { DerivesFrom types.old element types.new result (λ t. array_sized (lines_view at) length t) }
{
    match types.array_of(element, length) {
        Ok(Some(target)) => Ok(QualifiedRef {
            qualifiers: PLAIN,
            target,
        }),
        Ok(None) => Err(TypeRefusal::TooLarge(at.lengths, Size::Cells)),
        Err(_) => Err(TypeRefusal::Memory),
    }
}

/// An array (C11 6.7.6.2).
fn arrayed(
    types: &mut Types,
    at: Lines,
    length: Option<u32>,
    element: QualifiedRef,
) -> Result<QualifiedRef, TypeRefusal>
    ensures kept { Extends types.old types.new }
    ensures made { DerivesFrom types.old element types.new result (λ t. rule.arrayed (lines_view at) false length t) }
{
    match array_refusal(types, at, element) {
        Some(refusal) => Err(refusal),
        None => array_with(types, at, length, element),
    }
}

/// The type of a function with parameters and a result.
fn function_type(
    types: &mut Types,
    ps: &[Local],
    value: QualifiedRef,
) -> Result<TypeRef, AllocError>
    ensures kept { Extends types.old types.new }
    ensures made { (t : Qualified) (ls : List known.Local) → StandsFor types.old value t → MeanLocals types.old ps.now ls
        → IfOk result (λ r. Stands types.new r (function_of (map rule.parameter_type ls) t)) }
{
    match ps {
        [] => types.returning(value),
        [first, others @ ..] => {
            let rest = function_type(types, others, value)?;
            types.taking(first.ty.target, rest)
        }
    }
}

/// Whether a function gives no such type (C11 6.7.6.3p1).
fn is_no_result(types: &Types, of: TypeRef) -> bool
    ensures { result ≡ (array_type (type_at types.now of) || function_of_type (type_at types.now of)) }
{
    types.is_array(of) || types.is_function(of)
}

/// A function with parameters (C11 6.7.6.3).
fn returned(
    types: &mut Types,
    at: Lines,
    ps: &[Local],
    value: QualifiedRef,
) -> Result<QualifiedRef, TypeRefusal>
    ensures kept { Extends types.old types.new }
    ensures made { (ls : List known.Local) → MeanLocals types.old ps.now ls
        → DerivesFrom types.old value types.new result (λ t. rule.returned (lines_view at) ls t) }
{
    if is_no_result(types, value.target) {
        Err(TypeRefusal::Mismatch(at.rules, 22))
    } else if ps.len() <= MOST_PARAMETERS {
        plain(function_type(types, ps, value))
    } else {
        Err(TypeRefusal::TooLarge(at.lengths, Size::Params))
    }
}

/// What a part of a declarator makes of a type.
fn derived_by(
    types: &mut Types,
    at: Lines,
    d: &Derivation,
    t: QualifiedRef,
) -> Result<QualifiedRef, TypeRefusal>
    ensures kept { Extends types.old types.new }
    ensures made { (e : rule.Derivation) → MeansDerivation types.old d.now e
        → DerivesFrom types.old t types.new result (λ u. rule.derived_by (lines_view at) false e u) }
{
    match d {
        Derivation::Pointer(qualifiers) => pointed_to(types, at, *qualifiers, t),
        Derivation::Array(length) => arrayed(types, at, *length, t),
        Derivation::Function(ps) => returned(types, at, ps.as_slice(), t),
    }
}

/// The type that a declarator gives, from the specifiers' type outward to the name (C11 6.7.6).
pub(crate) fn derived_type(
    types: &mut Types,
    at: Lines,
    base: QualifiedRef,
    ds: &[Derivation],
) -> Result<QualifiedRef, TypeRefusal>
    ensures kept { Extends types.old types.new }
    ensures made { (es : List rule.Derivation) → AreDerivations types.old ds.now es
        → DerivesFrom types.old base types.new result (λ t. rule.derived (lines_view at) false t es) }
{
    let mut t = base;
    for k in 0..ds.len() {
        t = derived_by(types, at, &ds[ds.len() - 1 - k], t)?;
    }
    Ok(t)
}

/// A parameter's type, which is no void, adjusted (C11 6.7.6.3p7, p8).
fn adjusted(types: &mut Types, at: Lines, t: QualifiedRef) -> Result<QualifiedRef, TypeRefusal>
    ensures kept { Extends types.old types.new }
    ensures made { DerivesFrom types.old t types.new result (λ u. rule.parameter_of (lines_view at) (Ok u)) }
{
    if types.is_void(t.target) {
        return Err(TypeRefusal::Mismatch(at.rules, 14));
    }
    match types.decayed(t.target) {
        Ok(target) => Ok(QualifiedRef {
            qualifiers: t.qualifiers,
            target,
        }),
        Err(_) => Err(TypeRefusal::Memory),
    }
}

/// A parameter's array as a pointer to its element, however many cells the array would have.
fn array_parameter(
    types: &mut Types,
    at: Lines,
    element: QualifiedRef,
) -> Result<QualifiedRef, TypeRefusal>
    ensures kept { Extends types.old types.new }
    ensures made { (n : Option ℕ) → DerivesFrom types.old element types.new result
        (λ u. rule.parameter_of (lines_view at) (rule.arrayed (lines_view at) true n u)) }
{
    match array_refusal(types, at, element) {
        Some(refusal) => Err(refusal),
        None => plain(types.pointer_to(element)),
    }
}

/// A parameter's pointer.
fn pointer_parameter(
    types: &mut Types,
    at: Lines,
    qualifiers: Qualifiers,
    to: QualifiedRef,
) -> Result<QualifiedRef, TypeRefusal>
    ensures kept { Extends types.old types.new }
    ensures made { DerivesFrom types.old to types.new result
        (λ u. rule.parameter_of (lines_view at) (rule.pointed_to (lines_view at) qualifiers u)) }
{
    match pointed_to(types, at, qualifiers, to) {
        Ok(pointer) => adjusted(types, at, pointer),
        Err(refusal) => Err(refusal),
    }
}

/// A parameter's function as a pointer to it.
fn function_parameter(
    types: &mut Types,
    at: Lines,
    ps: &[Local],
    value: QualifiedRef,
) -> Result<QualifiedRef, TypeRefusal>
    ensures kept { Extends types.old types.new }
    ensures made { (ls : List known.Local) → MeanLocals types.old ps.now ls → DerivesFrom types.old value types.new result
        (λ u. rule.parameter_of (lines_view at) (rule.returned (lines_view at) ls u)) }
{
    match returned(types, at, ps, value) {
        Ok(function) => adjusted(types, at, function),
        Err(refusal) => Err(refusal),
    }
}

/// What the part nearest to a parameter's name makes of a type.
fn nearest(
    types: &mut Types,
    at: Lines,
    d: &Derivation,
    t: QualifiedRef,
) -> Result<QualifiedRef, TypeRefusal>
    ensures kept { Extends types.old types.new }
    ensures made { (e : rule.Derivation) → MeansDerivation types.old d.now e → DerivesFrom types.old t types.new result
        (λ u. rule.parameter_of (lines_view at) (rule.derived_by (lines_view at) true e u)) }
{
    match d {
        Derivation::Pointer(qualifiers) => pointer_parameter(types, at, *qualifiers, t),
        Derivation::Array(_) => array_parameter(types, at, t),
        Derivation::Function(ps) => function_parameter(types, at, ps.as_slice(), t),
    }
}

/// A parameter's own type (C11 6.7.6.3).
pub(crate) fn parameter_type(
    types: &mut Types,
    at: Lines,
    base: QualifiedRef,
    ds: &[Derivation],
) -> Result<QualifiedRef, TypeRefusal>
    ensures kept { Extends types.old types.new }
    ensures made { (es : List rule.Derivation) → AreDerivations types.old ds.now es → DerivesFrom types.old base types.new result
        (λ u. rule.parameter_of (lines_view at) (rule.derived (lines_view at) true u es)) }
{
    match ds {
        [] => adjusted(types, at, base),
        [d, others @ ..] => match derived_type(types, at, base, others) {
            Ok(t) => nearest(types, at, d, t),
            Err(refusal) => Err(refusal),
        },
    }
}
