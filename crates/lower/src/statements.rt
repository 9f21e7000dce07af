ghost use Rattle.std.specs.Prelude.{◌≡◌, ℕ, List, Option, Some, None, option_map, map};
ghost use Rattle.std.specs.Option.{option_copied};
ghost use Rattle.mid_code.specs.declared.mid.Mid.TheVariants as mid_of;
ghost use Rattle.c_typed.specs.Views.{value_view};
ghost use Rattle.c_typed.specs.Statements.{no_items};
ghost use Rattle.lower.specs.Nodes.{for_of};
ghost use Rattle.c_typed.specs.StatementViews.{stmt_view, all_items as items_of, block_item_view, local_item_view};
ghost use Rattle.source_meaning.specs.Statements.{locals_of, numbers_of};
ghost use Rattle.lower.specs.Emitting.{jumped, wrapped};
ghost use Rattle.lower.specs.Statements.{lowers, lowers_items, in_block, looped, do_looped, looped_with};
ghost use Rattle.lower.specs.Emits.{nothing, rows_of, types_of, inside_view};
ghost use Rattle.lower.specs.Runs.{Runs};

use crate::body::Body;
use crate::initializers::initialize_all;
use crate::inside::Inside;
use crate::jumps::returned;
use crate::locals::{begin_block, begin_locals};
use crate::loops::{compute, given, test};
use crate::refusal::LowerRefusal;
use crate::values::value;
use c_typed::{BlockItem, ForHead, ForStart, LocalItem, Stmt, StmtNode, Value};
use mid_code::Mid;

/// Lowers a statement (C11 6.8). Temporaries are free again at each.
#[cycle(statement)]
pub(crate) fn statement(at: Inside, body: &mut Body, stmt: &Stmt) -> Result<(), LowerRefusal>
    ensures { Runs nothing (rows_of at.entry) body.old body.new result
        (lowers (inside_view at.entry) (stmt_view (types_of at.entry) stmt.now)) }
{
    let line = stmt.line;
    match &stmt.node {
        StmtNode::Empty => Ok(()),
        StmtNode::Value(e) => {
            value(at, &mut body.out, e, 0)?;
            Ok(())
        }
        StmtNode::Block(block) => {
            let block = block.get();
            items_in_block(at, body, block.items.as_slice(), block.line)
        }
        StmtNode::If(e, a, otherwise) => {
            let test = value(at, &mut body.out, e, 0)?;
            match otherwise {
                None => only_if(at, body, line, test, a.get()),
                Some(b) => {
                    let waits = body.out.jump_from(line, false, test)?;
                    statement(at, body, a.get())?;
                    let over = body.out.turn(line, waits)?;
                    statement(at, body, b.get())?;
                    body.out.lead_here(over);
                    Ok(())
                }
            }
        }
        StmtNode::While(e, a) => rounds(at, body, line, Some(e), a.get(), None),
        StmtNode::Do(a, e) => rounds_of_do(at, body, line, a.get(), e),
        StmtNode::For(head, a) => for_loop(at, body, line, head, a.get()),
        StmtNode::Continue => body.resume(line),
        StmtNode::Break => body.leave(line),
        StmtNode::Return(e) => {
            let source = returned(at, &mut body.out, line, e)?;
            body.give_back(at, line, source)
        }
    }
}

/// `if` without `else`, behind its test (C11 6.8.4.1).
#[cycle(statement)]
fn only_if(at: Inside, body: &mut Body, line: u32, test: u16, a: &Stmt) -> Result<(), LowerRefusal>
    ensures { Runs nothing (rows_of at.entry) body.old body.new result
        (wrapped (jumped line (mid_of.JumpZ test)) (lowers (inside_view at.entry) (stmt_view (types_of at.entry) a.now))) }
{
    let waits = body.out.jump_from(line, false, test)?;
    statement(at, body, a)?;
    body.out.lead_here(waits);
    Ok(())
}

/// The rounds of a loop with its condition, if it has one, before its body, and a step behind it, if it has one
/// (C11 6.8.5.1, 6.8.5.3).
#[cycle(statement)]
fn rounds(
    at: Inside,
    body: &mut Body,
    line: u32,
    condition: Option<&Value>,
    a: &Stmt,
    step: Option<&Value>,
) -> Result<(), LowerRefusal>
    ensures { Runs nothing (rows_of at.entry) body.old body.new result
        (looped (inside_view at.entry) line (option_map (value_view (types_of at.entry)) (option_copied condition.entry))
        (lowers (inside_view at.entry) (stmt_view (types_of at.entry) a.now))
        (option_map (value_view (types_of at.entry)) (option_copied step.entry))) }
{
    let top = body.out.here();
    let objects = body.enter_loop()?;
    body.out.emit(line, Mid::Turn)?;
    let tested = test(at, &mut body.out, condition)?;
    let leaving = body.out.leave_unless(line, tested)?;
    statement(at, body, a)?;
    let continue_at = body.out.here();
    compute(at, &mut body.out, step)?;
    body.out.emit(line, Mid::Jump { place: top })?;
    body.out.lead_if(leaving);
    body.leave_loop(objects, continue_at)?;
    Ok(())
}

/// The rounds of a `do` (C11 6.8.5.2).
#[cycle(statement)]
fn rounds_of_do(
    at: Inside,
    body: &mut Body,
    line: u32,
    a: &Stmt,
    condition: &Value,
) -> Result<(), LowerRefusal>
    ensures { Runs nothing (rows_of at.entry) body.old body.new result
        (do_looped (inside_view at.entry) line (lowers (inside_view at.entry) (stmt_view (types_of at.entry) a.now))
        (value_view (types_of at.entry) condition.now)) }
{
    let top = body.out.here();
    let objects = body.enter_loop()?;
    body.out.emit(line, Mid::Turn)?;
    statement(at, body, a)?;
    let continue_at = body.out.here();
    let source = value(at, &mut body.out, condition, 0)?;
    body.out.emit(line, Mid::JumpN { source, place: top })?;
    body.leave_loop(objects, continue_at)?;
    Ok(())
}

/// `for` (C11 6.8.5.3).
#[cycle(statement)]
fn for_loop(
    at: Inside,
    body: &mut Body,
    line: u32,
    head: &ForHead,
    a: &Stmt,
) -> Result<(), LowerRefusal>
    ensures { Runs nothing (rows_of at.entry) body.old body.new result
        (lowers (inside_view at.entry) (for_of (types_of at.entry) line head.now (stmt_view (types_of at.entry) a.now))) }
{
    match &head.start {
        ForStart::Value(first) => {
            compute(at, &mut body.out, given(first))?;
            rounds(at, body, line, given(&head.test), a, given(&head.step))
        }
        ForStart::Locals(locals) => rounds_with(at, body, line, locals.as_slice(), head, a),
    }
}

/// `for` with locals, which live as long as the loop.
#[cycle(statement)]
fn rounds_with(
    at: Inside,
    body: &mut Body,
    line: u32,
    locals: &[LocalItem],
    head: &ForHead,
    a: &Stmt,
) -> Result<(), LowerRefusal>
    ensures { Runs nothing (rows_of at.entry) body.old body.new result
        (looped_with (inside_view at.entry) (map (local_item_view (types_of at.entry)) locals.now) line
        (option_map (value_view (types_of at.entry)) head.now.test) (lowers (inside_view at.entry) (stmt_view (types_of at.entry) a.now))
        (option_map (value_view (types_of at.entry)) head.now.step)) }
{
    let stay = body.objects.len();
    begin_locals(at, body, locals)?;
    initialize_all(at, &mut body.out, locals)?;
    rounds(at, body, line, given(&head.test), a, given(&head.step))?;
    body.close_down_to(stay, line)
}

/// A block, whose objects end at the line (C11 6.8.2).
#[cycle(statement)]
pub(crate) fn items_in_block(
    at: Inside,
    body: &mut Body,
    items: &[BlockItem],
    line: u32,
) -> Result<(), LowerRefusal>
    ensures { Runs nothing (rows_of at.entry) body.old body.new result
        (in_block (inside_view at.entry) (locals_of (items_of (map (block_item_view (types_of at.entry)) items.now))) line
        (lowers_items (inside_view at.entry) (items_of (map (block_item_view (types_of at.entry)) items.now)))) }
{
    let stay = body.objects.len();
    begin_block(at, body, items)?;
    all_items(at, body, items)?;
    body.close_down_to(stay, line)
}

/// The parts of a block, in order, whose locals have begun.
#[cycle(statement)]
pub(crate) fn all_items(
    at: Inside,
    body: &mut Body,
    items: &[BlockItem],
) -> Result<(), LowerRefusal>
    ensures { Runs nothing (rows_of at.entry) body.old body.new result
        (lowers_items (inside_view at.entry) (items_of (map (block_item_view (types_of at.entry)) items.now))) }
{
    for item in items {
        block_item(at, body, item)?;
    }
    Ok(())
}

/// A part of a block: statements are lowered, and locals take their values.
#[cycle(statement)]
fn block_item(at: Inside, body: &mut Body, item: &BlockItem) -> Result<(), LowerRefusal>
    ensures { Runs nothing (rows_of at.entry) body.old body.new result
        (lowers_items (inside_view at.entry) (block_item_view (types_of at.entry) item.now no_items)) }
{
    match item {
        BlockItem::Statement(stmt) => statement(at, body, stmt),
        BlockItem::Declaration(locals) => initialize_all(at, &mut body.out, locals.as_slice()),
    }
}
