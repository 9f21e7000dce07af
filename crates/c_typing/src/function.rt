ghost use Rattle.std.specs.Prelude.{◌≡◌, ℕ, List, length};
ghost use Rattle.c_types.specs.Types.{CType, Qualified};
ghost use Rattle.c_types.specs.Table.{Stands, StandsFor};
ghost use Rattle.c_typed.specs.Statements.{Items as TypedItems};
ghost use Rattle.typing_rules.specs.Known.{Local as KnownLocal};
ghost use Rattle.typing_rules.specs.SourceViews.{block_view, definition_view};
ghost use Rattle.typing_rules.specs.DeclaratorRules as rule;
ghost use Rattle.typing_rules.specs.OrderedUnits as ordered;
ghost use Rattle.c_entities.specs.Views.{storage_view};
ghost use Rattle.c_known.specs.Views.{line_in as told_line};
ghost use Rattle.c_known.specs.Gives.{Gives};
ghost use Rattle.c_known.specs.Standing.{MeanLocals};
ghost use Rattle.c_declarators.specs.Derivations.{lines_view, AreDerivations};
ghost use Rattle.c_declarators.specs.Trees.{declarator_in};
ghost use Rattle.c_entities.specs.declared.entity.File.{File as AnyFile};
ghost use Rattle.c_statements.specs.Parts.{IsBlock};
ghost use Rattle.c_typing.specs.Files.{IsFunction};
ghost use Rattle.c_typing.specs.Functions.{function_ended, function_bodied, function_with, defined_begun, defined_typed, defined_derived, defined_specified};

use crate::at_file::AtFile;
use crate::begin::begin_function;
use crate::item::storage_of;
use c_declarators::{Derivation, Lines, derived, lines_of, name_of, own_parameters, specified};
use c_entities::Storage;
use c_known::{File, Known, Local, line_in};
use c_statements::items;
use c_terms::derivations;
use c_tree::{Declarator, FunctionDefinition};
use c_typed::{Block, Function};
use c_types::{QualifiedRef, TypeRef};
use typing_rules::TypeRefusal;

/// What is known of a function before its body: the number of its entity, the line of its name, its type, and how many
/// parameters it has.
#[derive(Clone, Copy)]
struct Head {
    entity: u32,
    line: u32,
    ty: TypeRef,
    parameters: u32,
}

/// The line of a declarator's name; 0 where there is none.
fn line_of_name(file: File, d: &Declarator) -> u32
    ensures { result ≡ (rule.or_no_name (rule.name_of (declarator_in file d.now))).line }
{
    match name_of(d) {
        None => 0,
        Some(name) => line_in(file, name.line),
    }
}

/// The bytes of a declarator's name; none where there is none.
fn bytes_of_name(d: &Declarator) -> &[u8]
    ensures { (file : AnyFile) → result.now ≡ (rule.or_no_name (rule.name_of (declarator_in file d.now))).bytes }
{
    match name_of(d) {
        None => b"".as_slice(),
        Some(name) => name.bytes.as_slice(),
    }
}

/// The end of a function's body.
fn end_function(known: &mut Known, head: Head, body: Block) -> Result<Function, TypeRefusal>
    ensures { (t : CType) (begin end : ℕ) (is : TypedItems) → Stands known.old.types head.ty t → IsBlock begin end known.old.types body is
        → Gives IsFunction known.old known.new result (function_ended head.entity head.line t head.parameters begin end is) }
{
    let locals = known.rows()?;
    known.close_function();
    Ok(Function {
        entity: head.entity,
        line: head.line,
        ty: head.ty,
        parameters: head.parameters,
        locals,
        body,
    })
}

/// A function's body, in the scope of its parameters.
fn check_body(
    known: &mut Known,
    file: File,
    head: Head,
    d: &FunctionDefinition,
) -> Result<Function, TypeRefusal>
    ensures { (t : CType) → Stands known.old.types head.ty t
        → Gives IsFunction known.old known.new result
        (function_bodied head.entity head.line t head.parameters (definition_view (told_line file) d.now)) }
{
    let returns = known.types.result(head.ty);
    let body = items(known, file, returns, &d.body)?;
    end_function(known, head, body)
}

/// The same, in a scope that begins.
fn open_body(
    known: &mut Known,
    file: File,
    head: Head,
    ps: Vec<Local>,
    d: &FunctionDefinition,
) -> Result<Function, TypeRefusal>
    ensures { (t : CType) (ls : List KnownLocal) → Stands known.old.types head.ty t → MeanLocals known.old.types ps.items ls → head.parameters ≡ length ls
        → Gives IsFunction known.old known.new result (function_with ls head.line t (definition_view (told_line file) d.now) head.entity) }
{
    known.open_function(ps)?;
    check_body(known, file, head, d)
}

/// A function whose parameters are known is defined.
fn define_begun(
    known: &mut Known,
    at: AtFile,
    name: &[u8],
    ps: Vec<Local>,
    d: &FunctionDefinition,
) -> Result<Function, TypeRefusal>
    ensures { (t : Qualified) (ls : List KnownLocal) → StandsFor known.old.types at.ty t → MeanLocals known.old.types ps.items ls
        → Gives IsFunction known.old known.new result
        (defined_begun (record { line = at.line; bytes = name.now }) (storage_view at.storage) t (definition_view (told_line at.file) d.now) ls) }
{
    let Ok(parameters) = u32::try_from(ps.len()) else {
        return Err(TypeRefusal::Memory);
    };
    let entity = begin_function(known, at, name)?;
    let head = Head {
        entity,
        line: at.line,
        ty: at.ty.target,
        parameters,
    };
    open_body(known, at.file, head, ps, d)
}

/// A function whose type is known is defined.
fn define_typed(
    known: &mut Known,
    at: AtFile,
    name: &[u8],
    ds: Vec<Derivation>,
    d: &FunctionDefinition,
) -> Result<Function, TypeRefusal>
    ensures { (t : Qualified) (es : List rule.Derivation) → StandsFor known.old.types at.ty t → AreDerivations known.old.types ds.items es
        → Gives IsFunction known.old known.new result
        (defined_typed (record { line = at.line; bytes = name.now }) (storage_view at.storage) (definition_view (told_line at.file) d.now) es t) }
{
    match own_parameters(ds) {
        None => Err(TypeRefusal::Mismatch(at.line, 22)),
        Some(ps) => define_begun(known, at, name, ps, d),
    }
}

/// A function whose declarator's parts are known is defined.
fn define_derived(
    known: &mut Known,
    file: File,
    base: (Storage, QualifiedRef),
    lines: Lines,
    ds: Vec<Derivation>,
    d: &FunctionDefinition,
) -> Result<Function, TypeRefusal>
    ensures { (t : Qualified) (es : List rule.Derivation) → StandsFor known.old.types base.1 t → AreDerivations known.old.types ds.items es
        → Gives IsFunction known.old known.new result
        (defined_derived (rule.or_no_name (rule.name_of (declarator_in file d.now.declarator))) (storage_view base.0) t (lines_view lines)
        (definition_view (told_line file) d.now) es) }
{
    let ty = derived(known, lines, base.1, ds.as_slice())?;
    let at = AtFile {
        file,
        line: line_of_name(file, &d.declarator),
        storage: base.0,
        ty,
    };
    define_typed(known, at, bytes_of_name(&d.declarator), ds, d)
}

/// A function is defined behind its specifiers.
fn define_specified(
    known: &mut Known,
    file: File,
    base: (Storage, QualifiedRef),
    d: &FunctionDefinition,
) -> Result<Function, TypeRefusal>
    ensures { (t : Qualified) → StandsFor known.old.types base.1 t
        → Gives IsFunction known.old known.new result
        (defined_specified (storage_view base.0) t (definition_view (told_line file) d.now)) }
{
    let lines = lines_of(file, d.line, &d.declarator);
    let ds = derivations(known, file, lines, &d.declarator)?;
    define_derived(known, file, base, lines, ds, d)
}

/// The definition of a function (C11 6.9.1).
pub(crate) fn define_function(
    known: &mut Known,
    file: File,
    d: &FunctionDefinition,
) -> Result<Function, TypeRefusal>
    ensures { Gives IsFunction known.old known.new result (ordered.function_defined (definition_view (told_line file) d.now)) }
{
    let base = specified(file, true, d.line, d.specifiers.as_slice())?;
    define_specified(known, file, (storage_of(base.storage), base.ty), d)
}
