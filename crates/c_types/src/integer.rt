ghost use Rattle.std.specs.Prelude.{◌≡◌};
ghost use Rattle.srmt_base.specs.Types.{IsPromoted};
ghost use Rattle.c_types.specs.Types.{cells_of_integer, bytes_of_integer};
ghost use Rattle.c_types.specs.Conversions.{promoted as promoted_of, common as common_of, usual as usual_of};

use srmt_base::Ty;

/// How many cells a value of an integer type takes.
pub fn integer_cells(ty: Ty) -> u32
    ensures { result ≡ cells_of_integer ty }
{
    match ty {
        Ty::Bool | Ty::Char | Ty::SChar | Ty::UChar => 1,
        Ty::Short | Ty::UShort | Ty::Int | Ty::UInt => 1,
    }
}

/// What `sizeof` gives for an integer type (C11 6.5.3.4).
pub fn integer_bytes(ty: Ty) -> u32
    ensures { result ≡ bytes_of_integer ty }
{
    match ty {
        Ty::Bool | Ty::Char | Ty::SChar | Ty::UChar => 1,
        Ty::Short | Ty::UShort => 2,
        Ty::Int | Ty::UInt => 4,
    }
}

/// The type to which the integer promotions convert (C11 6.3.1.1p2).
pub fn promoted(ty: Ty) -> Ty
    ensures exact { result ≡ promoted_of ty }
    ensures promoted { IsPromoted result }
{
    match ty {
        Ty::Bool | Ty::Char | Ty::SChar | Ty::UChar => Ty::Int,
        Ty::Short | Ty::UShort | Ty::Int => Ty::Int,
        Ty::UInt => Ty::UInt,
    }
}

/// The common type of two promoted types (C11 6.3.1.8p1).
fn common(a: Ty, b: Ty) -> Ty
    requires first { IsPromoted a }
    requires second { IsPromoted b }
    ensures exact { result ≡ common_of a b }
    ensures promoted { IsPromoted result }
{
    if b.width() < a.width() {
        a
    } else if a.width() < b.width() {
        b
    } else if a.is_signed() {
        b
    } else {
        a
    }
}

/// The type to which the usual arithmetic conversions convert (C11 6.3.1.8).
pub fn usual(a: Ty, b: Ty) -> Ty
    ensures exact { result ≡ usual_of a b }
    ensures promoted { IsPromoted result }
{
    common(promoted(a), promoted(b))
}
