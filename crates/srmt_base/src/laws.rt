//! Laws by which a reader can trust the definitions: each function does nothing, and its contract
//! is proved.

ghost use Rattle.std.specs.Prelude.{ℕ, ◌^◌, ◌<◌, ℤ};
ghost use Rattle.srmt_base.specs.declared.word.Kind.{Kind};
ghost use Rattle.srmt_base.specs.declared.ty.Ty.{Ty};
ghost use Rattle.srmt_base.specs.Types.{IsPromoted};
ghost use Rattle.srmt_base.specs.Word.{IsWord};
ghost use Rattle.srmt_base.specs.Laws.{ConvertsAsC, Recombines, OrdersValues, GivesParts, IsItsParts};

/// A conversion keeps what the new type can represent, and changes the rest by a multiple of 2 to
/// the new type's width (C11 6.3.1.3).
pub fn conversions_are_those_of_c()
    ensures { (from to : Ty) (a : ℕ) → ConvertsAsC from to a }
{}

/// `a == (a / b) * b + a % b`, wherever both are defined (C11 6.5.5p6).
pub fn division_recombines()
    ensures { (ty : Ty) (a b : ℕ) → IsPromoted ty → Recombines ty a b }
{}

/// The comparisons are the total order of whole numbers (C11 6.5.8, 6.5.9).
pub fn comparisons_order_values()
    ensures { (x y z : ℤ) → OrdersValues x y z }
{}

/// Words are one to one with the numbers of 64 bits that have a kind of 1 to 6.
pub fn words_are_their_parts()
    ensures packed { (kind : Kind) (site value : ℕ) → site < 2 ^ 16 → value < 2 ^ 44 → GivesParts kind site value }
    ensures read { (bits : ℕ) → bits < 2 ^ 64 → IsWord bits → IsItsParts bits }
{}
