ghost use Rattle.std.specs.Prelude.{◌≡◌, ◌==◌, ◌∷◌, [], if◌then◌else◌, OnOk, map};
ghost use Rattle.c_typed.specs.Views.{value_view};
ghost use Rattle.c_typed.specs.StatementViews.{stmt_view, local_item_view, cell_view, for_start_view};
ghost use Rattle.c_meaning.specs.Pending.{does, evaluate, forget, execute as executes, execute_items, end_block, at_top, after_body, answer};
ghost use Rattle.c_meaning.specs.Plans.{statement_plan, for_plan, items_plan, choice_plan, top_plan, tested_plan, round_plan, again_plan, initial_plan, cell_plan};
ghost use Rattle.c_meaning.specs.Puts.{Puts};
ghost use Rattle.c_meaning.specs.TaskViews.{task_view, items_view};
ghost use Rattle.c_meaning.specs.declared.task.Task.TheVariants as task;

use crate::stack::Tasks;
use crate::task::{ItemsWork, LocalsWork, StmtWork, Task, ValueWork};
use c_typed::{
    Block, BlockItem, Cell, ForHead, ForStart, Initializer, LocalItem, Stmt, StmtNode, Value,
};
use sqlite_items::{Boxed, Items};
use std::alloc::AllocError;

/// A value is to be evaluated, and its statement goes on from there.
fn then<'p>(
    tasks: &mut Tasks<'p>,
    value: &'p Value,
    work: StmtWork,
    stmt: &'p Stmt,
) -> Result<(), AllocError>
    ensures { OnOk result (Puts tasks.old tasks.new (λ types.
        does (evaluate (value_view types value.now)) ∷ task_view types (task.Stmt work stmt.entry) ∷ [])) }
{
    tasks.push(Task::Stmt(work, stmt))?;
    tasks.push(Task::Value(ValueWork::Evaluate, value))
}

/// A value is to be evaluated and dropped.
fn dropped<'p>(tasks: &mut Tasks<'p>, value: &'p Value) -> Result<(), AllocError>
    ensures { OnOk result (Puts tasks.old tasks.new (λ types. does (evaluate (value_view types value.now)) ∷ does forget ∷ [])) }
{
    tasks.push(Task::Forget)?;
    tasks.push(Task::Value(ValueWork::Evaluate, value))
}

/// A block is executed, and its locals end.
fn block<'p>(tasks: &mut Tasks<'p>, block: &'p Block) -> Result<(), AllocError>
    ensures { OnOk result (Puts tasks.old tasks.new (λ types.
        execute_items (items_view types block.now.items) ∷ end_block (items_view types block.now.items) ∷ [])) }
{
    let items = block.items.as_slice();
    tasks.push(Task::Items(ItemsWork::End, items))?;
    tasks.push(Task::Items(ItemsWork::Execute, items))
}

/// A loop is at its top.
fn top<'p>(tasks: &mut Tasks<'p>, stmt: &'p Stmt) -> Result<(), AllocError>
    ensures { OnOk result (Puts tasks.old tasks.new (λ types. at_top (stmt_view types stmt.now) ∷ [])) }
{
    tasks.push(Task::Stmt(StmtWork::Top, stmt))
}

/// A value is to be evaluated and returned.
fn returned<'p>(tasks: &mut Tasks<'p>, value: &'p Value) -> Result<(), AllocError>
    ensures { OnOk result (Puts tasks.old tasks.new (λ types. does (evaluate (value_view types value.now)) ∷ answer ∷ [])) }
{
    tasks.push(Task::Answer)?;
    tasks.push(Task::Value(ValueWork::Evaluate, value))
}

/// A `for` begins.
fn begin_for<'p>(tasks: &mut Tasks<'p>, stmt: &'p Stmt, head: &'p ForHead) -> Result<(), AllocError>
    ensures { OnOk result (Puts tasks.old tasks.new (λ types. for_plan (for_start_view types head.now.start) (at_top (stmt_view types stmt.now)))) }
{
    match &head.start {
        ForStart::Value(None) => tasks.push(Task::Stmt(StmtWork::Top, stmt)),
        ForStart::Value(Some(first)) => {
            tasks.push(Task::Stmt(StmtWork::Top, stmt))?;
            dropped(tasks, first.get())
        }
        ForStart::Locals(locals) => {
            let locals = locals.as_slice();
            tasks.push(Task::Locals(LocalsWork::End, locals))?;
            tasks.push(Task::Stmt(StmtWork::Top, stmt))?;
            tasks.push(Task::Locals(LocalsWork::Initialize, locals))
        }
    }
}

/// What stands in the place of a statement, where its locals have begun; nothing for one that only jumps.
pub(crate) fn plan_statement<'p>(tasks: &mut Tasks<'p>, stmt: &'p Stmt) -> Result<(), AllocError>
    ensures { OnOk result (Puts tasks.old tasks.new (λ types. statement_plan (stmt_view types stmt.now))) }
{
    match &stmt.node {
        StmtNode::Block(b) => block(tasks, b.get()),
        StmtNode::Empty | StmtNode::Continue | StmtNode::Break => Ok(()),
        StmtNode::Value(value) => dropped(tasks, value),
        StmtNode::If(test, _, _) => then(tasks, test, StmtWork::Choose, stmt),
        StmtNode::While(..) | StmtNode::Do(..) => top(tasks, stmt),
        StmtNode::For(head, _) => begin_for(tasks, stmt, head),
        StmtNode::Return(value) => match value {
            None => Ok(()),
            Some(value) => returned(tasks, value),
        },
    }
}

/// What stands in the place of the rest of a block.
pub(crate) fn plan_items<'p>(
    tasks: &mut Tasks<'p>,
    items: &'p [BlockItem],
) -> Result<(), AllocError>
    ensures { OnOk result (Puts tasks.old tasks.new (λ types. items_plan (items_view types items.now))) }
{
    let Some((first, rest)) = items.split_first() else {
        return Ok(());
    };
    tasks.push(Task::Items(ItemsWork::Execute, rest))?;
    match first {
        BlockItem::Declaration(locals) => {
            tasks.push(Task::Locals(LocalsWork::Initialize, locals.as_slice()))
        }
        BlockItem::Statement(stmt) => tasks.push(Task::Stmt(StmtWork::Execute, stmt)),
    }
}

/// A statement is executed.
fn execute<'p>(tasks: &mut Tasks<'p>, stmt: &'p Boxed<Stmt>) -> Result<(), AllocError>
    ensures { OnOk result (Puts tasks.old tasks.new (λ types. executes (stmt_view types stmt.now) ∷ [])) }
{
    tasks.push(Task::Stmt(StmtWork::Execute, stmt.get()))
}

/// The branch that the test of an `if` chooses.
pub(crate) fn plan_choice<'p>(
    tasks: &mut Tasks<'p>,
    stmt: &'p Stmt,
    test: u64,
) -> Result<(), AllocError>
    ensures { OnOk result (Puts tasks.old tasks.new (λ types. choice_plan (stmt_view types stmt.now) test)) }
{
    match &stmt.node {
        StmtNode::If(_, first, second) => {
            if test != 0 {
                return execute(tasks, first);
            }
            match second {
                None => Ok(()),
                Some(second) => execute(tasks, second),
            }
        }
        StmtNode::Block(_) | StmtNode::Empty | StmtNode::Value(_) => Ok(()),
        StmtNode::While(..) | StmtNode::Do(..) | StmtNode::For(..) => Ok(()),
        StmtNode::Continue | StmtNode::Break | StmtNode::Return(_) => Ok(()),
    }
}

/// The body of a loop, and what follows it.
fn body<'p>(tasks: &mut Tasks<'p>, stmt: &'p Stmt, inner: &'p Boxed<Stmt>) -> Result<(), AllocError>
    ensures { OnOk result (Puts tasks.old tasks.new (λ types. executes (stmt_view types inner.now) ∷ after_body (stmt_view types stmt.now) ∷ [])) }
{
    tasks.push(Task::Stmt(StmtWork::AfterBody, stmt))?;
    execute(tasks, inner)
}

/// What a loop does after its turn.
pub(crate) fn plan_top<'p>(tasks: &mut Tasks<'p>, stmt: &'p Stmt) -> Result<(), AllocError>
    ensures { OnOk result (Puts tasks.old tasks.new (λ types. top_plan (stmt_view types stmt.now))) }
{
    match &stmt.node {
        StmtNode::While(test, _) => then(tasks, test, StmtWork::Tested, stmt),
        StmtNode::Do(inner, _) => body(tasks, stmt, inner),
        StmtNode::For(head, inner) => match &head.test {
            None => body(tasks, stmt, inner),
            Some(test) => then(tasks, test.get(), StmtWork::Tested, stmt),
        },
        StmtNode::Block(_) | StmtNode::Empty | StmtNode::Value(_) | StmtNode::If(..) => Ok(()),
        StmtNode::Continue | StmtNode::Break | StmtNode::Return(_) => Ok(()),
    }
}

/// What a loop does after its test.
pub(crate) fn plan_tested<'p>(
    tasks: &mut Tasks<'p>,
    stmt: &'p Stmt,
    test: u64,
) -> Result<(), AllocError>
    ensures { OnOk result (Puts tasks.old tasks.new (λ types. tested_plan (stmt_view types stmt.now) test)) }
{
    if test == 0 {
        return Ok(());
    }
    match &stmt.node {
        StmtNode::While(_, inner) | StmtNode::For(_, inner) | StmtNode::Do(inner, _) => {
            body(tasks, stmt, inner)
        }
        StmtNode::Block(_) | StmtNode::Empty | StmtNode::Value(_) => Ok(()),
        StmtNode::If(..) | StmtNode::Continue | StmtNode::Break | StmtNode::Return(_) => Ok(()),
    }
}

/// What a loop does after its body.
pub(crate) fn plan_round<'p>(tasks: &mut Tasks<'p>, stmt: &'p Stmt) -> Result<(), AllocError>
    ensures { OnOk result (Puts tasks.old tasks.new (λ types. round_plan (stmt_view types stmt.now))) }
{
    match &stmt.node {
        StmtNode::While(..) => tasks.push(Task::Stmt(StmtWork::Top, stmt)),
        StmtNode::Do(_, test) => then(tasks, test, StmtWork::Again, stmt),
        StmtNode::For(head, _) => {
            tasks.push(Task::Stmt(StmtWork::Top, stmt))?;
            match &head.step {
                None => Ok(()),
                Some(step) => dropped(tasks, step.get()),
            }
        }
        StmtNode::Block(_) | StmtNode::Empty | StmtNode::Value(_) | StmtNode::If(..) => Ok(()),
        StmtNode::Continue | StmtNode::Break | StmtNode::Return(_) => Ok(()),
    }
}

/// What a `do` does after its test.
pub(crate) fn plan_again<'p>(
    tasks: &mut Tasks<'p>,
    stmt: &'p Stmt,
    test: u64,
) -> Result<(), AllocError>
    ensures { OnOk result (Puts tasks.old tasks.new (λ types. again_plan (stmt_view types stmt.now) test)) }
{
    if test == 0 {
        return Ok(());
    }
    tasks.push(Task::Stmt(StmtWork::Top, stmt))
}

/// What a local does that takes its first value, its address being on the stack.
pub(crate) fn plan_initial<'p>(
    tasks: &mut Tasks<'p>,
    local: &'p LocalItem,
) -> Result<(), AllocError>
    ensures { OnOk result (Puts tasks.old tasks.new (λ types. initial_plan (local_item_view types local.now))) }
{
    match &local.initializer {
        None => Ok(()),
        Some(Initializer::Scalar(value)) => {
            tasks.push(Task::Give(local.number))?;
            tasks.push(Task::Value(ValueWork::Evaluate, value))
        }
        Some(Initializer::Cells(cells)) => {
            tasks.push(Task::Cells(local.number, cells.as_slice()))
        }
    }
}

/// What the next cell of a local does, the address of the local being on the stack.
pub(crate) fn plan_cell<'p>(
    tasks: &mut Tasks<'p>,
    number: u32,
    cell: &'p Cell,
) -> Result<(), AllocError>
    ensures { OnOk result (Puts tasks.old tasks.new (λ types. cell_plan number (cell_view types cell.now))) }
{
    tasks.push(Task::Cell(number, cell.index))?;
    tasks.push(Task::Value(ValueWork::Evaluate, &cell.value))
}
