ghost use Rattle.std.specs.Prelude.{◌≡◌, ◌<◌, length, slice_index_or, false, ◌∷◌, [], ◌++◌, Ok, Err, OnOk, OnErr};
ghost use Rattle.c_types.specs.Types.{Qualified};
ghost use Rattle.c_types.specs.Table.{StandsFor};
ghost use Rattle.typing_rules.specs.declared.refusal.TypeRefusal.TheVariants as refusal;
ghost use Rattle.typing_rules.specs.SourceViews.{specifiers_view, pointers_from, qualifiers_from};
ghost use Rattle.c_declarators.specs.declared.derivation.Derivation.TheVariants as derivation;
ghost use Rattle.typing_rules.specs.Terms as terms;
ghost use Rattle.typing_rules.specs.DeclaratorRules as rule;
ghost use Rattle.typing_rules.specs.Checking.{from_result, ruled_by};
ghost use Rattle.typing_rules.specs.OrderedParts.{specified as said, parameter as becomes_known};
ghost use Rattle.c_known.specs.Views.{line_in as told_line};
ghost use Rattle.c_known.specs.Gives.{Gives, IsDone, IsSame};
ghost use Rattle.c_declarators.specs.Derivations.{lines_view, AreDerivations};
ghost use Rattle.c_terms.specs.Nodes.{OverOne};
ghost use Rattle.c_terms.specs.Fronts.{AddsParts};
ghost use Rattle.c_terms.specs.Kinds.{IsBase, list_begun};

use c_declarators::{Derivation, Lines, specified};
use c_known::{File, Known};
use c_tree::{Pointer, Specifier};
use c_types::{QualifiedRef, Qualifiers};
use c_values::Written;
use typing_rules::TypeRefusal;

/// Adds an item behind others.
pub fn add<T: Drop>(items: &mut Vec<T>, item: T) -> Result<(), TypeRefusal>
    ensures added { OnOk result (items.new.items ≡ items.old.items ++ item ∷ []) }
    ensures memory { OnErr result (result ≡ Err refusal.Memory) }
{
    match items.push(item) {
        Ok(()) => Ok(()),
        Err(_) => Err(TypeRefusal::Memory),
    }
}

/// The type that specifiers without a storage word say, whose first stands on a line.
pub fn base_of(
    known: &Known,
    file: File,
    line: u32,
    words: &[Specifier],
) -> Result<QualifiedRef, TypeRefusal>
    ensures { Gives IsBase known.now known.now result (said false (specifiers_view (told_line file) line words.now)) }
{
    match specified(file, false, line, words) {
        Ok(said) => Ok(said.ty),
        Err(refusal) => Err(refusal),
    }
}

/// The length of an array.
pub fn length_of(known: &Known, at: Lines, value: &Written) -> Result<u32, TypeRefusal>
    ensures { OverOne known.now.types value.now (λ w. Gives IsSame known.now known.now result (ruled_by at.lengths (rule.length_of w.value))) }
{
    c_declarators::length_of(&known.types, at, value)
}

/// A list of parameters begins: the number of its first local.
pub fn begin_list(known: &mut Known) -> Result<u32, TypeRefusal>
    ensures { Gives IsSame known.old known.new result list_begun }
{
    let before = known.local_count()?;
    known.open()?;
    Ok(before)
}

/// The `*` of a declarator: the last stands nearest to the name.
pub fn add_pointers(
    known: &Known,
    lines: Lines,
    pointers: &[Pointer],
    parts: &mut Vec<Derivation>,
) -> Result<(), TypeRefusal>
    ensures { AddsParts known.now known.now lines parts.old.items parts.new.items result (pointers_from pointers.now) }
{
    let mut left = pointers.len();
    while left > 0 {
        left -= 1;
        add(parts, pointer_at(pointers, left))?;
    }
    Ok(())
}

/// A `*` of a declarator as a part of it.
fn pointer_at(pointers: &[Pointer], at: usize) -> Derivation
    requires { at < length pointers.now }
    ensures { (d : _) → result ≡ derivation.Pointer (qualifiers_from (slice_index_or pointers.now at d)) }
{
    let pointer = pointers[at];
    Derivation::Pointer(Qualifiers {
        is_const: pointer.is_const,
        is_volatile: pointer.is_volatile,
    })
}
