ghost use Rattle.std.specs.Prelude.{◌≡◌, List, false, IfOk, option_map, option_copied};
ghost use Rattle.c_types.specs.Types.{Qualified};
ghost use Rattle.c_types.specs.Table.{StandsFor};
ghost use Rattle.typing_rules.specs.DeclaratorRules as rule;
ghost use Rattle.typing_rules.specs.OrderedParts.{parameter as becomes_known};
ghost use Rattle.typing_rules.specs.Checking.{from_result, makes};
ghost use Rattle.typing_rules.specs.Known as what;
ghost use Rattle.typing_rules.specs.SourceViews.{named_view};
ghost use Rattle.c_types.specs.declared.type_ref.Row.{Row};
ghost use Rattle.c_known.specs.Views.{line_in as told_line};
ghost use Rattle.c_known.specs.Standing.{MeansLocal};
ghost use Rattle.c_declarators.specs.Locals.{lines_in, type_of, local_of as as_local, becomes_local as local_made, numbered as local_numbered};
ghost use Rattle.c_known.specs.Gives.{Gives, IsDone};
ghost use Rattle.c_declarators.specs.Derivations.{AreDerivations, HasOwn, lines_view};
ghost use Rattle.c_declarators.specs.Trees.{parameter_in};

use crate::derivation::{Derivation, Lines};
use crate::tree::{first_if, lines_if, name_if};
use crate::types::{derived_type, parameter_type};
use c_known::{File, Known, Local, line_in};
use c_tree::{Name, Parameter};
use c_types::QualifiedRef;
use std::alloc::{AllocError, Global};
use typing_rules::TypeRefusal;

/// The type that a declarator gives, from the specifiers' type outward to the name (C11 6.7.6).
pub fn derived(
    known: &mut Known,
    at: Lines,
    base: QualifiedRef,
    ds: &[Derivation],
) -> Result<QualifiedRef, TypeRefusal>
    ensures { (t : Qualified) (es : List rule.Derivation) → StandsFor known.old.types base t → AreDerivations known.old.types ds.now es
        → Gives StandsFor known.old known.new result (from_result (rule.derived (lines_view at) false t es)) }
{
    derived_type(&mut known.types, at, base, ds)
}

/// The type of a parameter with the parts of its declarator.
fn own_type(
    known: &mut Known,
    file: File,
    p: &Parameter,
    base: QualifiedRef,
    ds: &[Derivation],
) -> Result<QualifiedRef, TypeRefusal>
    ensures { (t : Qualified) (es : List rule.Derivation) → StandsFor known.old.types base t → AreDerivations known.old.types ds.now es
        → Gives StandsFor known.old known.new result (from_result (type_of (lines_in file p.now) t es)) }
{
    let at = lines_if(file, p.line, &p.declarator);
    parameter_type(&mut known.types, at, base, ds)
}

/// The bytes of a name, if there is one.
fn bytes_of(alloc: Global, name: Option<&Name>) -> Result<Option<Vec<u8>>, AllocError>
    ensures { IfOk result (λ bytes. option_map (λ n. n.items) bytes ≡ option_map (λ n. n.bytes) (option_copied name.entry)) }
{
    match name {
        None => Ok(None),
        Some(name) => Ok(Some(name.bytes.as_slice().to_vec(alloc)?)),
    }
}

/// The line of a name, or of the specifiers where there is none.
fn line_or(file: File, specifiers: u32, name: Option<&Name>) -> u32
    ensures { result ≡ rule.line_or (told_line file specifiers) (option_map (named_view (told_line file)) (option_copied name.entry)) }
{
    match name {
        None => line_in(file, specifiers),
        Some(name) => line_in(file, name.line),
    }
}

/// A parameter as a local.
fn local_of(alloc: Global, file: File, p: &Parameter, ty: QualifiedRef) -> Result<Local, AllocError>
    ensures { (rows : List Row) (t : Qualified) → StandsFor rows ty t → IfOk result (λ l. MeansLocal rows l (as_local file p.now t)) }
{
    let name = name_if(&p.declarator);
    Ok(Local {
        name: bytes_of(alloc, name)?,
        line: line_or(file, p.line, name),
        first: first_if(file, p.line, &p.declarator),
        ty,
        is_addressed: false,
    })
}

/// A parameter of a type becomes a local.
fn becomes_local(
    known: &mut Known,
    file: File,
    p: &Parameter,
    ty: QualifiedRef,
) -> Result<(), TypeRefusal>
    ensures { (t : Qualified) → StandsFor known.old.types ty t → Gives IsDone known.old known.new result (local_made file p.now t) }
{
    let number = known.local_count()?;
    numbered(known, file, p, ty, number)
}

/// The same with its number.
fn numbered(
    known: &mut Known,
    file: File,
    p: &Parameter,
    ty: QualifiedRef,
    number: u32,
) -> Result<(), TypeRefusal>
    ensures { (t : Qualified) → StandsFor known.old.types ty t → Gives IsDone known.old known.new result (local_numbered file p.now t number) }
{
    known.name_local(file, name_if(&p.declarator), number)?;
    added(known, file, p, ty)
}

/// It stands among the locals.
fn added(known: &mut Known, file: File, p: &Parameter, ty: QualifiedRef) -> Result<(), TypeRefusal>
    ensures { (t : Qualified) → StandsFor known.old.types ty t → Gives IsDone known.old known.new result (makes (what.with_local (as_local file p.now t))) }
{
    match local_of(known.alloc, file, p, ty) {
        Ok(local) => known.add_local(local),
        Err(_) => Err(TypeRefusal::Memory),
    }
}

/// A parameter becomes a local, in the innermost scope under its name if it has one (C11 6.7.6.3p7, p8).
pub fn parameter(
    known: &mut Known,
    file: File,
    p: &Parameter,
    base: QualifiedRef,
    ds: &[Derivation],
) -> Result<(), TypeRefusal>
    ensures { (t : Qualified) (es : List rule.Derivation) → StandsFor known.old.types base t → AreDerivations known.old.types ds.now es
        → Gives IsDone known.old known.new result (becomes_known (parameter_in file p.now).specifiers t (parameter_in file p.now).declarator es) }
{
    let ty = own_type(known, file, p, base, ds)?;
    becomes_local(known, file, p, ty)
}

/// The parameters of a function's own declarator, if the part nearest to the name is a list of them.
pub fn own_parameters(ds: Vec<Derivation>) -> Option<Vec<Local>>
    ensures { HasOwn ds.items result }
{
    match ds.into_iter().next() {
        Some(Derivation::Function(ps)) => Some(ps),
        Some(Derivation::Pointer(_)) => None,
        Some(Derivation::Array(_)) => None,
        None => None,
    }
}
