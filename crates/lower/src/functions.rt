ghost use Rattle.std.specs.Prelude.{◌≡◌, ℕ, List, [], ◌∷◌, IfOk, IfErr};
ghost use Rattle.c_types.specs.declared.type_ref.Row.{Row};
ghost use Rattle.c_types.specs.Table.{type_at};
ghost use Rattle.c_typed.specs.StatementViews.{function_view, program_view};
ghost use Rattle.source_meaning.specs.Calls.{numbers_below};
ghost use Rattle.lower.specs.Expressions.{row_at};
ghost use Rattle.lower.specs.Programs.{argument_stands, arguments_stand, parameter_begins, parameters_begin, parameters_at, leaves_at, exits_at, main_body, body_of, with_body, typed_code, lowered_function};
ghost use Rattle.lower.specs.Emits.{Emits, itself, nothing, rows_of, types_of, inside_view};
ghost use Rattle.lower.specs.Runs.{Runs, Begins};
ghost use Rattle.lower.specs.Functions.{AreTypes, GivesFunction, Starts};
ghost use Rattle.c_types.specs.Types.{CType, result_of};
ghost use Rattle.lower.specs.declared.refusal.LowerRefusal.TheVariants.{Memory};

use crate::allotted::Allotted;
use crate::body::Body;
use crate::code::Code;
use crate::emitter::Emitter;
use crate::inside::{Inside, kind_of};
use crate::locals::{begin_block, open};
use crate::refusal::LowerRefusal;
use crate::statements::{all_items, items_in_block};
use c_types::TypeRef;
use indexmap::IndexSet;
use mid_code::{Mid, MidFunction};
use sqlite_items::Items;
use std::alloc::Global;

/// A function as it is lowered, with the types of functions that the program has so far.
#[derive(Drop)]
pub(crate) struct Lowered {
    pub(crate) function: MidFunction,
    pub(crate) types: IndexSet<TypeRef>,
}

/// An argument stands in the next register.
fn stand_argument(at: Inside, out: &mut Emitter, number: usize) -> Result<(), LowerRefusal>
    ensures { Emits nothing (rows_of at.entry) out.old out.new result (argument_stands (inside_view at.entry) number) }
{
    let row = at.row(number);
    let register = out.register(kind_of(at.types(), row.ty.target), row.line)?;
    out.settle(number, register);
    Ok(())
}

/// The arguments stand in the first registers.
fn stand_arguments(at: Inside, out: &mut Emitter) -> Result<(), LowerRefusal>
    ensures { Emits nothing (rows_of at.entry) out.old out.new result
        (arguments_stand (inside_view at.entry) (numbers_below at.entry.function.now.parameters)) }
{
    for number in 0..at.function.parameters {
        stand_argument(at, out, number as usize)?;
    }
    Ok(())
}

/// A parameter in memory is an object that takes its argument (C11 6.5.2.2p4).
fn begin_parameter(at: Inside, body: &mut Body, number: usize) -> Result<(), LowerRefusal>
    ensures { Begins nothing (rows_of at.entry) (λ start. parameters_at (inside_view at.entry).rows start (number ∷ [])) body.old body.new result
        (parameter_begins (inside_view at.entry) number) }
{
    let row = at.row(number);
    if row.is_placed {
        let pointer = open(body, number, 1, row.line)?;
        let Ok(source) = u16::try_from(number) else {
            return Err(LowerRefusal::Memory);
        };
        return body.out.emit(row.line, Mid::Store { pointer, source });
    }
    Ok(())
}

/// The parameters begin, in order.
fn begin_parameters(at: Inside, body: &mut Body) -> Result<(), LowerRefusal>
    ensures { Begins nothing (rows_of at.entry)
        (λ start. parameters_at (inside_view at.entry).rows start (numbers_below at.entry.function.now.parameters)) body.old body.new
        result (parameters_begin (inside_view at.entry) (numbers_below at.entry.function.now.parameters)) }
{
    for number in 0..at.function.parameters {
        begin_parameter(at, body, number as usize)?;
    }
    Ok(())
}

/// `main` is left by `exit`, with 0, which ends no object.
fn leave_main(out: &mut Emitter, line: u32) -> Result<(), LowerRefusal>
    ensures { (rows : List Row) → Emits nothing rows out.old out.new result (exits_at line) }
{
    let target = out.temporary(0, line)?;
    out.emit(line, Mid::Const { target, value: 0 })?;
    out.emit(line, Mid::Exit { source: target })
}

/// The objects of the parameters end, and 0 is returned.
fn leave(at: Inside, body: &mut Body, line: u32) -> Result<(), LowerRefusal>
    ensures { Runs nothing (rows_of at.entry) body.old body.new result
        (leaves_at line (result_of (types_of at.entry at.entry.function.now.ty))) }
{
    body.close_all(line)?;
    let result = at.types().result(at.function.ty);
    let source = body.out.null(at, result, 0, line)?;
    body.out.emit(line, Mid::Return { source })
}

/// The body of `main`, and its end.
fn lower_main(at: Inside, body: &mut Body) -> Result<(), LowerRefusal>
    ensures { Runs nothing (rows_of at.entry) body.old body.new result
        (main_body (inside_view at.entry) (function_view (types_of at.entry) at.entry.function.now)) }
{
    let items = at.function.body.items.as_slice();
    let stay = body.objects.len();
    begin_block(at, body, items)?;
    all_items(at, body, items)?;
    body.objects.truncate(stay);
    leave_main(&mut body.out, at.function.body.end)
}

/// The body of a function, and its end.
fn lower_body(at: Inside, body: &mut Body) -> Result<(), LowerRefusal>
    ensures { Runs nothing (rows_of at.entry) body.old body.new result
        (body_of (inside_view at.entry) (function_view (types_of at.entry) at.entry.function.now)) }
{
    if at.is_main() {
        return lower_main(at, body);
    }
    let end = at.function.body.end;
    items_in_block(at, body, at.function.body.items.as_slice(), end)?;
    leave(at, body, end)
}

/// The parameters and the body.
fn lower_with_parameters(at: Inside, body: &mut Body) -> Result<(), LowerRefusal>
    ensures { Runs nothing (rows_of at.entry) body.old body.new result
        (with_body (inside_view at.entry) (function_view (types_of at.entry) at.entry.function.now)) }
{
    let stay = body.objects.len();
    begin_parameters(at, body)?;
    lower_body(at, body)?;
    body.objects.truncate(stay);
    Ok(())
}

/// The whole function, behind the number of its type.
fn lower_all(at: Inside, body: &mut Body) -> Result<u16, LowerRefusal>
    ensures { Runs itself (rows_of at.entry) body.old body.new result
        (typed_code (inside_view at.entry) (function_view (types_of at.entry) at.entry.function.now)) }
{
    let ty = body.out.type_number(at, at.function.ty)?;
    stand_arguments(at, &mut body.out)?;
    lower_with_parameters(at, body)?;
    Ok(ty)
}

/// A function of which nothing is lowered yet.
fn started(alloc: Global, locals: usize, types: IndexSet<TypeRef>) -> Result<Body, LowerRefusal>
    ensures begun { IfOk result (λ body. Starts locals types.keys body) }
    ensures memory { IfErr result (λ e. e ≡ Memory) }
{
    Ok(Body {
        alloc,
        out: Emitter {
            allotted: Allotted::new(alloc, locals, types)?,
            code: Code::new(alloc)?,
        },
        objects: Vec::new(alloc),
        outside: Vec::new(alloc),
    })
}

/// Lowers a function, or tells why it is not lowered: too many registers come before too much code.
pub(crate) fn lower_function(
    alloc: Global,
    at: Inside,
    types: IndexSet<TypeRef>,
) -> Result<Lowered, LowerRefusal>
    ensures { (known : List CType) → AreTypes (rows_of at.entry) types.keys known → GivesFunction (rows_of at.entry)
        (lowered_function (inside_view at.entry).program at.entry.part (function_view (types_of at.entry) at.entry.function.now) known) result }
{
    let mut body = started(alloc, at.function.locals.len(), types)?;
    let ty = lower_all(at, &mut body)?;
    let Emitter { allotted, code } = body.out;
    let Some(lines) = code.into_lines(alloc)? else {
        return Err(LowerRefusal::TooLong(at.function.line));
    };
    Ok(Lowered {
        function: MidFunction {
            ty,
            kinds: Items::from_vec(allotted.kinds),
            line: at.function.line,
            code: Items::from_vec(lines),
        },
        types: allotted.types,
    })
}
