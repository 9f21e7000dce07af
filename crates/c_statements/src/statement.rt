ghost use Rattle.std.specs.Prelude.{false, true, map, option_map};
ghost use Rattle.c_types.specs.Types.{CType};
ghost use Rattle.c_types.specs.Table.{Stands};
ghost use Rattle.typing_rules.specs.SourceUnits as source;
ghost use Rattle.typing_rules.specs.SourceViews.{expr_view, stmt_view, stmt_node_view, block_view, block_item_view, for_start_view, block_from};
ghost use Rattle.typing_rules.specs.OrderedStatements.{stmt_of, items_of};
ghost use Rattle.c_known.specs.Views.{line_in as told_line};
ghost use Rattle.c_known.specs.Gives.{Gives};
ghost use Rattle.c_statements.specs.Steps.{stmt_if, part_of, parts_of};
ghost use Rattle.c_statements.specs.Parts.{IsBlock, IsStmt, IsStmtIf, IsNode, IsPart, AreParts};

use crate::expression::condition;
use crate::jump::{break_node, continue_node, return_node};
use crate::memory::{boxed, push};
use crate::start::{for_end, for_head};
use crate::within::Within;
use c_declarations::declared_in_block;
use c_known::{File, Known, line_in};
use c_terms::value_of;
use c_tree as tree;
use c_typed::{Block, BlockItem, Stmt, StmtNode};
use c_types::TypeRef;
use sqlite_items::{Boxed, Items};
use typing_rules::TypeRefusal;

/// The body of a function with a result type (C11 6.9.1): its parts, and the lines of its braces. Its parameters'
/// scope is open.
pub fn items(
    known: &mut Known,
    file: File,
    returns: TypeRef,
    b: &tree::Block,
) -> Result<Block, TypeRefusal>
    ensures { (t : CType) → Stands known.old.types returns t
        → Gives (IsBlock (block_view (told_line file) b.now).line (block_view (told_line file) b.now).end) known.old known.new result
        (items_of t false (block_view (told_line file) b.now).items) }
{
    let at = Within {
        file,
        returns,
        in_loop: false,
    };
    block(known, at, b)
}

/// A block, in a scope that is open (C11 6.8.2).
#[cycle(statement)]
fn block(known: &mut Known, at: Within, b: &tree::Block) -> Result<Block, TypeRefusal>
    ensures { (t : CType) → Stands known.old.types at.returns t
        → Gives (IsBlock (block_view (told_line at.file) b.now).line (block_view (told_line at.file) b.now).end) known.old known.new result
        (items_of t at.in_loop (block_view (told_line at.file) b.now).items) }
{
    let items = parts(known, at, b.items.as_slice())?;
    Ok(Block {
        line: line_in(at.file, b.line),
        items,
        end: line_in(at.file, b.end),
    })
}

/// The parts of a block, in order.
#[cycle(statement)]
fn parts(
    known: &mut Known,
    at: Within,
    xs: &[tree::BlockItem],
) -> Result<Items<BlockItem>, TypeRefusal>
    ensures { (t : CType) → Stands known.old.types at.returns t
        → Gives AreParts known.old known.new result (parts_of t at.in_loop (map (block_item_view (told_line at.file)) xs.now)) }
{
    let mut made = Items::new(known.alloc);
    for x in xs {
        let next = part(known, at, x)?;
        push(&mut made, next)?;
    }
    Ok(made)
}

/// A part of a block.
#[cycle(statement)]
fn part(known: &mut Known, at: Within, x: &tree::BlockItem) -> Result<BlockItem, TypeRefusal>
    ensures { (t : CType) → Stands known.old.types at.returns t
        → Gives IsPart known.old known.new result (part_of t at.in_loop (block_item_view (told_line at.file) x.now source.no_items)) }
{
    match x {
        tree::BlockItem::Declaration(d) => Ok(BlockItem::Declaration(declared_in_block(
            known, at.file, d,
        )?)),
        tree::BlockItem::Statement(s) => Ok(BlockItem::Statement(stmt(known, at, s)?)),
    }
}

/// A statement (C11 6.8).
#[cycle(statement)]
fn stmt(known: &mut Known, at: Within, s: &tree::Stmt) -> Result<Stmt, TypeRefusal>
    ensures { (t : CType) → Stands known.old.types at.returns t
        → Gives IsStmt known.old known.new result (stmt_of t at.in_loop (stmt_view (told_line at.file) s.now)) }
{
    let line = line_in(at.file, s.line);
    let node = node(known, at, line, &s.node)?;
    Ok(Stmt { line, node })
}

/// What a statement is that begins on a line.
#[cycle(statement)]
fn node(
    known: &mut Known,
    at: Within,
    line: u32,
    n: &tree::StmtNode,
) -> Result<StmtNode, TypeRefusal>
    ensures { (t : CType) → Stands known.old.types at.returns t
        → Gives (IsNode line) known.old known.new result (stmt_of t at.in_loop (stmt_node_view (told_line at.file) n.now line)) }
{
    match n {
        tree::StmtNode::Block(b) => block_node(known, at, line, b.get()),
        tree::StmtNode::Empty => Ok(StmtNode::Empty),
        tree::StmtNode::Expr(e) => Ok(StmtNode::Value(
            value_of(known, at.file, e)?.typed.value.into_inner(),
        )),
        tree::StmtNode::If(e, s, u) => {
            let test = condition(known, at.file, line, e)?;
            let first = inner(known, at, s.get())?;
            let other = second(known, at, u)?;
            Ok(StmtNode::If(test.into_inner(), first, other))
        }
        tree::StmtNode::While(e, s) => while_node(known, at, line, s.get(), e),
        tree::StmtNode::Do(s, e) => do_node(known, at, line, s.get(), e),
        tree::StmtNode::For(head, s) => for_node(known, at, line, head, s.get()),
        tree::StmtNode::Continue => continue_node(at.in_loop, line),
        tree::StmtNode::Break => break_node(at.in_loop, line),
        tree::StmtNode::Return(e) => return_node(known, at, line, e),
    }
}

/// A compound statement, with a scope of its own (C11 6.8.2p2).
#[cycle(statement)]
fn block_node(
    known: &mut Known,
    at: Within,
    line: u32,
    b: &tree::Block,
) -> Result<StmtNode, TypeRefusal>
    ensures { (t : CType) → Stands known.old.types at.returns t
        → Gives (IsNode line) known.old known.new result (stmt_of t at.in_loop (block_from (block_view (told_line at.file) b.now))) }
{
    known.open()?;
    let inside = block(known, at, b)?;
    known.close();
    Ok(StmtNode::Block(boxed(known.alloc, inside)?))
}

/// A statement that is part of another one.
#[cycle(statement)]
fn inner(known: &mut Known, at: Within, s: &tree::Stmt) -> Result<Boxed<Stmt>, TypeRefusal>
    ensures { (t : CType) → Stands known.old.types at.returns t
        → Gives IsStmt known.old known.new result (stmt_of t at.in_loop (stmt_view (told_line at.file) s.now)) }
{
    let whole = stmt(known, at, s)?;
    boxed(known.alloc, whole)
}

/// The statement behind `else`, if there is one.
#[cycle(statement)]
fn second(
    known: &mut Known,
    at: Within,
    u: &Option<Boxed<tree::Stmt>>,
) -> Result<Option<Boxed<Stmt>>, TypeRefusal>
    ensures { (t : CType) → Stands known.old.types at.returns t
        → Gives IsStmtIf known.old known.new result (stmt_if t at.in_loop (option_map (stmt_view (told_line at.file)) u.now)) }
{
    match u {
        None => Ok(None),
        Some(s) => Ok(Some(inner(known, at, s.get())?)),
    }
}

/// `while` (C11 6.8.5.1).
#[cycle(statement)]
fn while_node(
    known: &mut Known,
    at: Within,
    line: u32,
    s: &tree::Stmt,
    e: &tree::Expr,
) -> Result<StmtNode, TypeRefusal>
    ensures { (t : CType) → Stands known.old.types at.returns t
        → Gives (IsNode line) known.old known.new result (stmt_of t at.in_loop
        (source.while line (expr_view (told_line at.file) e.now) (stmt_view (told_line at.file) s.now))) }
{
    let inside = Within {
        in_loop: true,
        ..at
    };
    let test = condition(known, at.file, line, e)?;
    let body = inner(known, inside, s)?;
    Ok(StmtNode::While(test.into_inner(), body))
}

/// `do` (C11 6.8.5.2).
#[cycle(statement)]
fn do_node(
    known: &mut Known,
    at: Within,
    line: u32,
    s: &tree::Stmt,
    e: &tree::Expr,
) -> Result<StmtNode, TypeRefusal>
    ensures { (t : CType) → Stands known.old.types at.returns t
        → Gives (IsNode line) known.old known.new result (stmt_of t at.in_loop
        (source.do_while line (stmt_view (told_line at.file) s.now) (expr_view (told_line at.file) e.now))) }
{
    let inside = Within {
        in_loop: true,
        ..at
    };
    let body = inner(known, inside, s)?;
    let test = condition(known, at.file, line, e)?;
    Ok(StmtNode::Do(body, test.into_inner()))
}

/// `for` (C11 6.8.5.3).
#[cycle(statement)]
fn for_node(
    known: &mut Known,
    at: Within,
    line: u32,
    head: &tree::ForHead,
    s: &tree::Stmt,
) -> Result<StmtNode, TypeRefusal>
    ensures { (t : CType) → Stands known.old.types at.returns t
        → Gives (IsNode line) known.old known.new result (stmt_of t at.in_loop
        (source.for line (for_start_view (told_line at.file) head.now.start) (option_map (expr_view (told_line at.file)) head.now.condition)
        (option_map (expr_view (told_line at.file)) head.now.step) (stmt_view (told_line at.file) s.now))) }
{
    let inside = Within {
        in_loop: true,
        ..at
    };
    let parentheses = for_head(known, at.file, line, head)?;
    let body = inner(known, inside, s)?;
    for_end(known, at.file, &head.start);
    Ok(StmtNode::For(parentheses, body))
}
