ghost use Rattle.std.specs.Prelude.{◌≡◌, ℕ, suc, IfOk, OnOk};
ghost use Rattle.mid_code.specs.Fits.{IsValue};
ghost use Rattle.c_typed.specs.StatementViews.{program_view, stmt_view};
ghost use Rattle.source_meaning.specs.Calls.{value_returned};
ghost use Rattle.source_meaning.specs.Sound.{CanRun};
ghost use Rattle.c_meaning.specs.Jumping as jumping;
ghost use Rattle.c_meaning.specs.Owes.{CanTake};
ghost use Rattle.c_meaning.specs.Pending.{after_body};
ghost use Rattle.c_meaning.specs.TaskViews.{task_view};
ghost use Rattle.c_meaning.specs.Runs.{types_of, Steps, IsSound, Falls, going, completion_of, work_left};

use crate::locals::Locals;
use crate::run::{Did, Run};
use crate::setting::At;
use crate::statement_plans::plan_round;
use crate::task::{Current, ItemsWork, LocalsWork, StmtWork, Task};
use c_typed::Stmt;
use std::alloc::AllocError;

/// How work is left by a jump (C11 6.8.6).
#[derive(Clone, Copy)]
pub(crate) enum Jump {
    Continue,
    Break,
    Return(u64),
}

/// What a task does to a jump.
#[derive(Clone, Copy)]
pub(crate) enum Met {
    /// The jump goes on behind it.
    Passes,
    /// The jump is over.
    Stops,
}

impl<'p> Run<'p> {
    /// A jump reaches the end of a loop's body: the loop goes on or ends, and the jump may be over.
    fn leave_body(&mut self, at: At<'p>, jump: Jump, stmt: &'p Stmt) -> Result<Met, AllocError>
        requires can { CanTake at self.old (after_body (stmt_view (types_of at.program.now) stmt.now)) }
        ensures { IfOk result (jumping.Meets at.entry (completion_of jump) self.old (after_body (stmt_view (types_of at.entry.program.now) stmt.now)) self.new) }
    {
        match jump {
            Jump::Continue => {
                plan_round(&mut self.tasks, stmt)?;
                Ok(Met::Stops)
            }
            Jump::Break => Ok(Met::Stops),
            Jump::Return(_) => Ok(Met::Passes),
        }
    }

    /// A jump reaches a task.
    fn meet(&mut self, at: At<'p>, jump: Jump, task: Task<'p>) -> Result<Met, AllocError>
        requires can { CanTake at self.old (task_view (types_of at.program.now) task) }
        requires small { jumping.IsSmall jump }
        ensures { IfOk result (jumping.Meets at.entry (completion_of jump) self.old (task_view (types_of at.entry.program.now) task.entry) self.new) }
    {
        match task {
            Task::Items(work, items) => match work {
                ItemsWork::Execute => Ok(Met::Passes),
                ItemsWork::End => {
                    self.world.end_block(at, items);
                    Ok(Met::Passes)
                }
            },
            Task::Locals(work, locals) => match work {
                LocalsWork::Initialize => Ok(Met::Passes),
                LocalsWork::End => {
                    self.world.end_locals(at, locals);
                    Ok(Met::Passes)
                }
            },
            Task::Stmt(work, stmt) => match work {
                StmtWork::AfterBody => self.leave_body(at, jump, stmt),
                StmtWork::Execute | StmtWork::Choose | StmtWork::Top => Ok(Met::Passes),
                StmtWork::Tested | StmtWork::Again => Ok(Met::Passes),
            },
            Task::Leave(caller, locals) => {
                self.leave(at, caller, locals, value_of(jump))?;
                Ok(Met::Stops)
            }
            Task::Value(..) | Task::Values(..) | Task::Place(..) | Task::Forget => Ok(Met::Passes),
            Task::Give(_) | Task::Cells(..) | Task::Cell(..) | Task::Answer => Ok(Met::Passes),
        }
    }

    /// Pending work is left by a jump.
    pub(crate) fn jump(&mut self, at: At<'p>, jump: Jump) -> Result<Did, AllocError>
        requires can { CanRun (program_view at.program.now) }
        requires sound { IsSound at.program.now self.old }
        requires here { at.current ≡ self.old.current }
        requires small { jumping.IsSmall jump }
        ensures steps { let p = at.entry.program.now in
            IfOk result (Steps p (λ bound. going p bound self.old self.old.values (completion_of jump)) self.old self.new) }
        ensures sound { OnOk result (IsSound at.entry.program.now self.new) }
        ensures falls { IfOk result (Falls at.entry.program.now (suc (work_left at.entry.program.now self.old)) self.old self.new) }
    {
        while let Some(task) = self.tasks.pop() {
            match self.meet(at, jump, task)? {
                Met::Passes => {}
                Met::Stops => return Ok(Did::Went),
            }
        }
        Ok(Did::Exited(self.values.top()))
    }
}

/// What a function returns that is left so: 0 where it does not say (C11 6.9.1p12, 5.1.2.2.3).
fn value_of(jump: Jump) -> u64
    requires { jumping.IsSmall jump }
    ensures value { result ≡ value_returned (completion_of jump) }
    ensures small { IsValue result }
{
    match jump {
        Jump::Return(value) => value,
        Jump::Continue | Jump::Break => 0,
    }
}
