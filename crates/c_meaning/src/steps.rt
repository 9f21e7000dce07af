ghost use Rattle.std.specs.Prelude.{◌≡◌, ℕ, ◌∷◌, [], IfOk, OnOk, map};
ghost use Rattle.mid_code.specs.Fits.{IsValue};
ghost use Rattle.c_typed.specs.StatementViews.{program_view, stmt_view, local_item_view, cell_view};
ghost use Rattle.c_typed.specs.Views.{value_view, place_view};
ghost use Rattle.source_meaning.specs.Sound.{CanRun};
ghost use Rattle.c_meaning.specs.Owes.{CanTake, Takes, IsInside, IsAsBefore, IsRunning, TakesTurn, IsAddressed, held};
ghost use Rattle.c_meaning.specs.Pending.{does, evaluate, decide, finish, locate, point, hold, hold_above, initialize_all, give, give_cells, give_cell, execute, at_top};
ghost use Rattle.c_meaning.specs.Runs.{types_of, setting_of, Changes, Frames, Steps, IsSound, Falls, going, work_left, depths_of};
ghost use Rattle.c_meaning.specs.Plans.{begun_first, jump_of};
ghost use Rattle.c_meaning.specs.Puts.{Puts};
ghost use Rattle.c_meaning.specs.Lifetimes.{IsReadyAt};
ghost use Rattle.c_meaning.specs.Told.{IsFraming};
ghost use Rattle.srmt_base.specs.Budgets.{turn_of};
ghost use Rattle.source_meaning.specs.Places.{all_begin};
ghost use Rattle.source_meaning.specs.Statements.{normal};
ghost use Rattle.source_meaning.specs.World.{spends};
ghost use Rattle.c_meaning.specs.TaskViews.{task_view};
ghost use Rattle.c_meaning.specs.declared.task.Task.TheVariants as task;

use crate::jumps::Jump;
use crate::plans::{plan_dropped, plan_place, plan_value, plan_values};
use crate::run::{Did, Run, told, trapped};
use crate::setting::At;
use crate::statement_plans::{
    plan_again, plan_cell, plan_choice, plan_initial, plan_items, plan_round, plan_statement,
    plan_tested, plan_top,
};
use crate::store::Trapped;
use crate::task::{ItemsWork, LocalsWork, PlaceWork, StmtWork, Task, ValueWork, ValuesWork};
use c_typed::{
    BlockItem, Cell, ForStart, Initializer, LocalItem, Place, PlaceNode, Stmt, StmtNode,
    TypedProgram, Value, ValueNode,
};
use sqlite_items::Boxed;
use std::alloc::{AllocError, Global};

impl<'p> Run<'p> {
    /// A value is evaluated, or its operands are first.
    fn evaluate(&mut self, at: At<'p>, value: &'p Value) -> Result<Did, AllocError>
        requires { CanTake at self.old (does (evaluate (value_view (types_of at.program.now) value.now))) }
        ensures { IfOk result (Takes at.entry self.old (does (evaluate (value_view (types_of at.entry.program.now) value.now))) self.new) }
    {
        match self.world.leaf(at, value) {
            Some(leaf) => self.gives(leaf),
            None => {
                plan_value(&mut self.tasks, value)?;
                Ok(Did::Went)
            }
        }
    }

    /// The second operand of `&&` or `||` is evaluated, and the value is its truth.
    fn second(&mut self, value: &'p Value, second: &'p Value) -> Result<Did, AllocError>
        ensures puts { OnOk result (Puts self.old.tasks self.new.tasks (λ types.
            does (evaluate (value_view types second.now)) ∷ does (finish (value_view types value.now)) ∷ [])) }
        ensures rest { OnOk result (IsAsBefore self.old self.new) }
        ensures went { IfOk result (λ d. d ≡ Did.Went) }
    {
        self.tasks.push(Task::Value(ValueWork::Finish, value))?;
        self.tasks.push(Task::Value(ValueWork::Evaluate, second))?;
        Ok(Did::Went)
    }

    /// Another value is evaluated.
    fn instead(&mut self, other: &'p Value) -> Result<Did, AllocError>
        ensures puts { OnOk result (Puts self.old.tasks self.new.tasks (λ types. does (evaluate (value_view types other.now)) ∷ [])) }
        ensures rest { OnOk result (IsAsBefore self.old self.new) }
        ensures went { IfOk result (λ d. d ≡ Did.Went) }
    {
        self.tasks.push(Task::Value(ValueWork::Evaluate, other))?;
        Ok(Did::Went)
    }

    /// The first operand is on the stack: another one is evaluated, or left out.
    fn decide(&mut self, at: At<'p>, value: &'p Value) -> Result<Did, AllocError>
        requires { CanTake at self.old (does (decide (value_view (types_of at.program.now) value.now))) }
        ensures { IfOk result (Takes at.entry self.old (does (decide (value_view (types_of at.entry.program.now) value.now))) self.new) }
    {
        match &value.node {
            ValueNode::Conjunction(_, second) => {
                if self.values.take() == 0 {
                    self.gives(0)
                } else {
                    self.second(value, second.get())
                }
            }
            ValueNode::Disjunction(_, second) => {
                if self.values.take() == 0 {
                    self.second(value, second.get())
                } else {
                    self.gives(1)
                }
            }
            ValueNode::Choice(_, first, second) => {
                if self.values.take() == 0 {
                    self.instead(second.get())
                } else {
                    self.instead(first.get())
                }
            }
            ValueNode::Constant(_) | ValueNode::Null | ValueNode::Read(_) => Ok(Did::Went),
            ValueNode::FirstElement(_) | ValueNode::Address(_) | ValueNode::Function(_) => {
                Ok(Did::Went)
            }
            ValueNode::Minus(_) | ValueNode::Complement(_) | ValueNode::Negation(_) => {
                Ok(Did::Went)
            }
            ValueNode::Arithmetic(..) | ValueNode::Sum(..) | ValueNode::Difference(..) => {
                Ok(Did::Went)
            }
            ValueNode::Comparison(..) | ValueNode::Sequence(..) => Ok(Did::Went),
            ValueNode::Assignment(..) | ValueNode::Update(..) | ValueNode::Move(..) => {
                Ok(Did::Went)
            }
            ValueNode::Conversion(..) | ValueNode::ToBool(..) => Ok(Did::Went),
            ValueNode::Requalified(_) | ValueNode::Discarded(_) => Ok(Did::Went),
            ValueNode::Call(..) | ValueNode::CallThrough(..) => Ok(Did::Went),
            ValueNode::Putchar(..) | ValueNode::Getchar(_) | ValueNode::Exit(..) => Ok(Did::Went),
        }
    }

    /// The address of a place goes onto the stack, or its operands are evaluated first.
    fn locate(&mut self, at: At<'p>, place: &'p Place) -> Result<Did, AllocError>
        requires { CanTake at self.old (does (locate (place_view (types_of at.program.now) place.now))) }
        ensures { IfOk result (Takes at.entry self.old (does (locate (place_view (types_of at.entry.program.now) place.now))) self.new) }
    {
        match self.world.address(at, place) {
            Some(address) => self.gives(address),
            None => {
                plan_place(&mut self.tasks, place)?;
                Ok(Did::Went)
            }
        }
    }

    /// The operands of a place are on the stack, and its address takes their place (C11 6.5.2.1p2).
    fn point(&mut self, at: At<'p>, place: &'p Place) -> Result<Did, AllocError>
        requires { CanTake at self.old (does (point (place_view (types_of at.program.now) place.now))) }
        ensures { IfOk result (Takes at.entry self.old (does (point (place_view (types_of at.entry.program.now) place.now))) self.new) }
    {
        match &place.node {
            PlaceNode::Element(line, pointer_first, a, b) => {
                let (a, b) = (a.get().ty, b.get().ty);
                self.finish_sum(at, *line, false, *pointer_first, a, b)
            }
            PlaceNode::Local(_) | PlaceNode::Static(_) | PlaceNode::Text(_) => Ok(Did::Went),
            PlaceNode::Pointed(_) => Ok(Did::Went),
        }
    }

    /// What a place at an address holds goes onto the stack.
    fn holds(&mut self, at: At<'p>, place: &Place, address: u64) -> Result<Did, AllocError>
        requires { IsValue address }
        ensures steps { let p = at.entry.program.now in
            IfOk result (Steps p (held at.entry (place_view (types_of p) place.now) address self.old) self.old self.new) }
        ensures frame { OnOk result (Frames self.old self.new) }
        ensures framing { IfOk result IsFraming }
    {
        let location = at.located(place, address);
        match self.world.fetch(location) {
            Ok((value, event)) => {
                self.values.push(value)?;
                Ok(told(event))
            }
            Err(end) => Ok(Did::Trapped(end)),
        }
    }

    /// Work on a place.
    fn do_place(&mut self, at: At<'p>, work: PlaceWork, place: &'p Place) -> Result<Did, AllocError>
        requires { CanTake at self.old (task_view (types_of at.program.now) (task.Place work place)) }
        ensures { IfOk result (Takes at.entry self.old (task_view (types_of at.entry.program.now) (task.Place work place.entry)) self.new) }
    {
        match work {
            PlaceWork::Locate => self.locate(at, place),
            PlaceWork::Point => self.point(at, place),
            PlaceWork::Hold => {
                let address = self.values.take();
                self.holds(at, place, address)
            }
            PlaceWork::HoldAbove => {
                let address = self.values.top();
                self.holds(at, place, address)
            }
        }
    }

    /// Work on a value.
    fn do_value(
        &mut self,
        alloc: Global,
        at: At<'p>,
        work: ValueWork,
        value: &'p Value,
    ) -> Result<Did, AllocError>
        requires { CanTake at self.old (task_view (types_of at.program.now) (task.Value work value)) }
        ensures { IfOk result (Takes at.entry self.old (task_view (types_of at.entry.program.now) (task.Value work value.entry)) self.new) }
    {
        match work {
            ValueWork::Evaluate => self.evaluate(at, value),
            ValueWork::Decide => self.decide(at, value),
            ValueWork::Finish => self.finish(alloc, at, value),
        }
    }

    /// The locals of a statement begin.
    fn begin_first(&mut self, at: At<'p>, stmt: &'p Stmt) -> Result<(), Trapped>
        requires ready { IsReadyAt at }
        ensures changes { (bound : ℕ) → let a = stmt_view (types_of at.entry.program.now) stmt.now in
            Changes (all_begin (setting_of bound at.entry) (begun_first a)) self.old.world self.new.world result }
        ensures rest { IsRunning self.old self.new }
        ensures budgets { self.new.world.budgets ≡ self.old.world.budgets }
    {
        match &stmt.node {
            StmtNode::Block(block) => self.world.begin_block(at, block.get().items.as_slice()),
            StmtNode::For(head, _) => match &head.start {
                ForStart::Locals(locals) => self.world.begin_locals(at, locals.as_slice()),
                ForStart::Value(_) => Ok(()),
            },
            StmtNode::Empty | StmtNode::Value(_) | StmtNode::If(..) => Ok(()),
            StmtNode::While(..) | StmtNode::Do(..) => Ok(()),
            StmtNode::Continue | StmtNode::Break | StmtNode::Return(_) => Ok(()),
        }
    }

    /// A statement is executed.
    fn execute(&mut self, at: At<'p>, stmt: &'p Stmt) -> Result<Did, AllocError>
        requires { CanTake at self.old (execute (stmt_view (types_of at.program.now) stmt.now)) }
        ensures { IfOk result (Takes at.entry self.old (execute (stmt_view (types_of at.entry.program.now) stmt.now)) self.new) }
    {
        match &stmt.node {
            StmtNode::Continue => self.jump(at, Jump::Continue),
            StmtNode::Break => self.jump(at, Jump::Break),
            StmtNode::Return(value) => match value {
                None => self.jump(at, Jump::Return(0)),
                Some(_) => self.begin(at, stmt),
            },
            StmtNode::Block(_) | StmtNode::For(..) | StmtNode::Empty | StmtNode::Value(_) => {
                self.begin(at, stmt)
            }
            StmtNode::If(..) | StmtNode::While(..) | StmtNode::Do(..) => self.begin(at, stmt),
        }
    }

    /// A statement that is no jump begins.
    fn begin(&mut self, at: At<'p>, stmt: &'p Stmt) -> Result<Did, AllocError>
        requires can { CanTake at self.old (execute (stmt_view (types_of at.program.now) stmt.now)) }
        requires goes_on { jump_of (stmt_view (types_of at.program.now) stmt.now) ≡ normal }
        ensures { IfOk result (Takes at.entry self.old (execute (stmt_view (types_of at.entry.program.now) stmt.now)) self.new) }
    {
        if let Err(end) = self.begin_first(at, stmt) {
            return Ok(Did::Trapped(end));
        }
        plan_statement(&mut self.tasks, stmt)?;
        Ok(Did::Went)
    }

    /// A turn is taken from the budget of the part that runs.
    fn spend_turn(&mut self, at: At<'p>, line: u32) -> Result<(), Trapped>
        ensures changes { Changes (spends line (turn_of at.entry.current.part)) self.old.world self.new.world result }
        ensures spent { OnOk result (TakesTurn self.old.world.budgets self.new.world.budgets) }
        ensures rest { IsRunning self.old self.new }
        ensures depths { depths_of self.new.world.budgets ≡ depths_of self.old.world.budgets }
    {
        let part = at.current.part;
        match self.world.budgets.of(part).count_turn() {
            Ok(budget) => {
                self.world.budgets = self.world.budgets.with(part, budget);
                Ok(())
            }
            Err(trap) => Err(Trapped { trap, line }),
        }
    }

    /// A loop is at its top: a turn is taken.
    fn top(&mut self, at: At<'p>, stmt: &'p Stmt) -> Result<Did, AllocError>
        requires can { CanTake at self.old (at_top (stmt_view (types_of at.program.now) stmt.now)) }
        ensures { IfOk result (Takes at.entry self.old (at_top (stmt_view (types_of at.entry.program.now) stmt.now)) self.new) }
    {
        match &stmt.node {
            StmtNode::While(..) | StmtNode::Do(..) | StmtNode::For(..) => {
                if let Err(end) = self.spend_turn(at, stmt.line) {
                    return Ok(Did::Trapped(end));
                }
                plan_top(&mut self.tasks, stmt)?;
                Ok(Did::Turned)
            }
            StmtNode::Block(_) | StmtNode::Empty | StmtNode::Value(_) | StmtNode::If(..) => {
                Ok(Did::Went)
            }
            StmtNode::Continue | StmtNode::Break | StmtNode::Return(_) => Ok(Did::Went),
        }
    }

    /// The test of a statement is on the stack, or its body is left: this is put before the pending tasks.
    fn go_on(&mut self, at: At<'p>, work: StmtWork, stmt: &'p Stmt) -> Result<Did, AllocError>
        requires can { CanTake at self.old (task_view (types_of at.program.now) (task.Stmt work stmt)) }
        requires inside { IsInside work }
        ensures { IfOk result (Takes at.entry self.old (task_view (types_of at.entry.program.now) (task.Stmt work stmt.entry)) self.new) }
    {
        match work {
            StmtWork::Choose => {
                let test = self.values.take();
                plan_choice(&mut self.tasks, stmt, test)?;
            }
            StmtWork::Tested => {
                let test = self.values.take();
                plan_tested(&mut self.tasks, stmt, test)?;
            }
            StmtWork::Again => {
                let test = self.values.take();
                plan_again(&mut self.tasks, stmt, test)?;
            }
            StmtWork::AfterBody => plan_round(&mut self.tasks, stmt)?,
            StmtWork::Execute | StmtWork::Top => {}
        }
        Ok(Did::Went)
    }

    /// Work on a statement.
    fn do_stmt(&mut self, at: At<'p>, work: StmtWork, stmt: &'p Stmt) -> Result<Did, AllocError>
        requires { CanTake at self.old (task_view (types_of at.program.now) (task.Stmt work stmt)) }
        ensures { IfOk result (Takes at.entry self.old (task_view (types_of at.entry.program.now) (task.Stmt work stmt.entry)) self.new) }
    {
        match work {
            StmtWork::Execute => self.execute(at, stmt),
            StmtWork::Top => self.top(at, stmt),
            StmtWork::Choose | StmtWork::Tested | StmtWork::AfterBody | StmtWork::Again => {
                self.go_on(at, work, stmt)
            }
        }
    }

    /// The address of a local goes onto the stack where it takes one value first.
    fn address_first(&mut self, at: At<'p>, local: &LocalItem) -> Result<(), AllocError>
        ensures { OnOk result (IsAddressed at.entry (local_item_view (types_of at.entry.program.now) local.now) self.old self.new) }
    {
        match &local.initializer {
            Some(Initializer::Scalar(_)) => {
                let address = self.world.address_of_local(at, local.number as usize);
                self.values.push(address)
            }
            None | Some(Initializer::Cells(_)) => Ok(()),
        }
    }

    /// Locals take their first values.
    fn initialize(&mut self, at: At<'p>, locals: &'p [LocalItem]) -> Result<Did, AllocError>
        requires { CanTake at self.old (does (initialize_all (map (local_item_view (types_of at.program.now)) locals.now))) }
        ensures { IfOk result (Takes at.entry self.old (does (initialize_all (map (local_item_view (types_of at.entry.program.now)) locals.now))) self.new) }
    {
        let Some((first, rest)) = locals.split_first() else {
            return Ok(Did::Went);
        };
        self.tasks.push(Task::Locals(LocalsWork::Initialize, rest))?;
        self.address_first(at, first)?;
        plan_initial(&mut self.tasks, first)?;
        Ok(Did::Went)
    }

    /// A local takes the value on the stack, above its address.
    fn give(&mut self, at: At<'p>, number: u32) -> Result<Did, AllocError>
        requires { CanTake at self.old (does (give number)) }
        ensures { IfOk result (Takes at.entry self.old (does (give number)) self.new) }
    {
        let value = self.values.take();
        let address = self.values.take();
        let row = at.row(number as usize);
        let location = at.local(number as usize, row.ty, row.line, address);
        match self.world.store(location, value) {
            Ok(event) => Ok(told(event)),
            Err(end) => Ok(Did::Trapped(end)),
        }
    }

    /// Cells of a local take their values.
    fn give_cells(&mut self, at: At<'p>, number: u32, cells: &'p [Cell]) -> Result<Did, AllocError>
        requires { CanTake at self.old (does (give_cells number (map (cell_view (types_of at.program.now)) cells.now))) }
        ensures { IfOk result (Takes at.entry self.old (does (give_cells number (map (cell_view (types_of at.entry.program.now)) cells.now))) self.new) }
    {
        let Some((first, rest)) = cells.split_first() else {
            return Ok(Did::Went);
        };
        self.tasks.push(Task::Cells(number, rest))?;
        let address = self.world.locals.get(number as usize);
        self.values.push(address)?;
        plan_cell(&mut self.tasks, number, first)?;
        Ok(Did::Went)
    }

    /// A cell of a local takes the value on the stack, above the local's address.
    fn give_cell(&mut self, at: At<'p>, number: u32, index: u32) -> Result<Did, AllocError>
        requires { CanTake at self.old (does (give_cell number index)) }
        ensures { IfOk result (Takes at.entry self.old (does (give_cell number index)) self.new) }
    {
        let value = self.values.take();
        let pointer = self.values.take() + u64::from(index);
        match self.world.memory.put(pointer, value) {
            Ok(()) => Ok(Did::Went),
            Err(trap) => Ok(trapped(trap, at.row(number as usize).line)),
        }
    }

    /// Work on values in order.
    fn do_values(
        &mut self,
        at: At<'p>,
        work: ValuesWork,
        values: &'p [Boxed<Value>],
    ) -> Result<Did, AllocError>
        requires { CanTake at self.old (task_view (types_of at.program.now) (task.Values work values)) }
        ensures { IfOk result (Takes at.entry self.old (task_view (types_of at.entry.program.now) (task.Values work values.entry)) self.new) }
    {
        match work {
            ValuesWork::Evaluate => plan_values(&mut self.tasks, values)?,
            ValuesWork::Drop => plan_dropped(&mut self.tasks, values)?,
        }
        Ok(Did::Went)
    }

    /// Work on the rest of a block.
    fn do_items(
        &mut self,
        at: At<'p>,
        work: ItemsWork,
        items: &'p [BlockItem],
    ) -> Result<Did, AllocError>
        requires { CanTake at self.old (task_view (types_of at.program.now) (task.Items work items)) }
        ensures { IfOk result (Takes at.entry self.old (task_view (types_of at.entry.program.now) (task.Items work items.entry)) self.new) }
    {
        match work {
            ItemsWork::Execute => plan_items(&mut self.tasks, items)?,
            ItemsWork::End => self.world.end_block(at, items),
        }
        Ok(Did::Went)
    }

    /// Work on the locals of a declaration.
    fn do_locals(
        &mut self,
        at: At<'p>,
        work: LocalsWork,
        locals: &'p [LocalItem],
    ) -> Result<Did, AllocError>
        requires { CanTake at self.old (task_view (types_of at.program.now) (task.Locals work locals)) }
        ensures { IfOk result (Takes at.entry self.old (task_view (types_of at.entry.program.now) (task.Locals work locals.entry)) self.new) }
    {
        match work {
            LocalsWork::Initialize => self.initialize(at, locals),
            LocalsWork::End => {
                self.world.end_locals(at, locals);
                Ok(Did::Went)
            }
        }
    }

    /// Does a task.
    fn take(&mut self, alloc: Global, at: At<'p>, task: Task<'p>) -> Result<Did, AllocError>
        requires { CanTake at self.old (task_view (types_of at.program.now) task) }
        ensures { IfOk result (Takes at.entry self.old (task_view (types_of at.entry.program.now) task.entry) self.new) }
    {
        match task {
            Task::Value(work, value) => self.do_value(alloc, at, work, value),
            Task::Place(work, place) => self.do_place(at, work, place),
            Task::Stmt(work, stmt) => self.do_stmt(at, work, stmt),
            Task::Leave(caller, locals) => {
                self.leave(at, caller, locals, 0)?;
                Ok(Did::Went)
            }
            Task::Answer => {
                let value = self.values.take();
                self.jump(at, Jump::Return(value))
            }
            Task::Forget => {
                let _value = self.values.take();
                Ok(Did::Went)
            }
            Task::Give(number) => self.give(at, number),
            Task::Cells(number, cells) => self.give_cells(at, number, cells),
            Task::Cell(number, index) => self.give_cell(at, number, index),
            Task::Values(work, values) => self.do_values(at, work, values),
            Task::Items(work, items) => self.do_items(at, work, items),
            Task::Locals(work, locals) => self.do_locals(at, work, locals),
        }
    }

    /// Does the next piece of work; where there is none, `main` was left, and its value is the status.
    pub(crate) fn step(
        &mut self,
        alloc: Global,
        program: &'p TypedProgram,
    ) -> Result<Did, AllocError>
        requires can { CanRun (program_view program.now) }
        requires sound { IsSound program.now self.old }
        ensures steps { let p = program.now in IfOk result (Steps p (λ bound. going p bound self.old self.old.values normal) self.old self.new) }
        ensures sound { OnOk result (IsSound program.now self.new) }
        ensures falls { IfOk result (Falls program.now (work_left program.now self.old) self.old self.new) }
    {
        let at = self.at(program);
        match self.tasks.pop() {
            Some(task) => self.take(alloc, at, task),
            None => Ok(Did::Exited(self.values.take())),
        }
    }
}
