ghost use Rattle.std.specs.Prelude.{◌≡◌, ℕ, ◌∷◌, List, [], reverse, OnOk, IfOk};
ghost use Rattle.c_types.specs.declared.type_ref.Row.{Row};
ghost use Rattle.mid_code.specs.declared.mid.Mid.TheVariants as mid_of;
ghost use Rattle.lower.specs.Emitting.{emits_code};
ghost use Rattle.lower.specs.Statements.{breaks, continues, returns, closes};
ghost use Rattle.lower.specs.SoFar.{Leads, added};
ghost use Rattle.lower.specs.Emits.{rows_of, inside_view, nothing};
ghost use Rattle.lower.specs.Runs.{Runs, SameObjects};
ghost use Rattle.lower.specs.Bodies.{Closes, ClosesDownTo, EntersLoop, LeavesLoop};
ghost use Rattle.lower.specs.declared.refusal.LowerRefusal.TheVariants.{Memory};

use crate::emitter::Emitter;
use crate::inside::Inside;
use crate::refusal::LowerRefusal;
use mid_code::Mid;
use std::alloc::{AllocError, Global};
use std::mem;

/// A function whose statements are being lowered.
#[derive(Drop)]
pub(crate) struct Body {
    pub(crate) alloc: Global,
    pub(crate) out: Emitter,
    /// The places that began the objects that live in the innermost loop, the newest last.
    pub(crate) objects: Vec<u32>,
    /// Those of the loops around it, and of the function.
    pub(crate) outside: Vec<u32>,
}

/// Objects end, the newest first, each at the line.
pub(crate) fn close(out: &mut Emitter, objects: &[u32], line: u32) -> Result<(), LowerRefusal>
    ensures { Closes line (reverse objects.now) out.old out.new result }
{
    for place in objects.iter().rev() {
        out.code.emit(line, Mid::Close { place: *place })?;
    }
    Ok(())
}

impl Body {
    /// `break` (C11 6.8.6.3).
    pub(crate) fn leave(&mut self, line: u32) -> Result<(), LowerRefusal>
        ensures { (rows : List Row) → Runs nothing rows self.old self.new result (emits_code (breaks line)) }
    {
        close(&mut self.out, &self.objects, line)?;
        self.out.code.emit_break(line)?;
        Ok(())
    }

    /// `continue` (C11 6.8.6.2).
    pub(crate) fn resume(&mut self, line: u32) -> Result<(), LowerRefusal>
        ensures { (rows : List Row) → Runs nothing rows self.old self.new result (emits_code (continues line)) }
    {
        close(&mut self.out, &self.objects, line)?;
        self.out.code.emit_continue(line)?;
        Ok(())
    }

    /// `return` behind its value (C11 6.8.6.4). `main` is left by `exit`, which ends no object.
    pub(crate) fn give_back(
        &mut self,
        at: Inside,
        line: u32,
        source: u16,
    ) -> Result<(), LowerRefusal>
        ensures { (rows : List Row) → Runs nothing rows self.old self.new result (emits_code (returns (inside_view at.entry) line source)) }
    {
        if at.is_main() {
            return self.out.emit(line, Mid::Exit { source });
        }
        self.close_all(line)?;
        self.out.emit(line, Mid::Return { source })
    }

    /// All objects of the function end, the newest first.
    pub(crate) fn close_all(&mut self, line: u32) -> Result<(), LowerRefusal>
        ensures { (rows : List Row) → Runs nothing rows self.old self.new result (emits_code (λ around start. closes line around.in_function)) }
    {
        close(&mut self.out, &self.objects, line)?;
        close(&mut self.out, &self.outside, line)?;
        Ok(())
    }

    /// The newest objects, down to so many that stay, end.
    pub(crate) fn close_down_to(&mut self, stay: usize, line: u32) -> Result<(), LowerRefusal>
        ensures { ClosesDownTo line stay self.old self.new result }
    {
        if stay <= self.objects.len() {
            close(&mut self.out, &self.objects[stay..], line)?;
            self.objects.truncate(stay);
        }
        Ok(())
    }

    /// A loop begins. What is handed out are the objects that live outside of it, since the loop around began.
    pub(crate) fn enter_loop(&mut self) -> Result<Vec<u32>, AllocError>
        ensures { IfOk result (EntersLoop self.old self.new) }
    {
        self.outside.extend_from_slice(&self.objects)?;
        self.out.code.begin_loop()?;
        Ok(mem::replace(&mut self.objects, Vec::new(self.alloc)))
    }

    /// It ends: `break` leads here, and `continue` to a place.
    pub(crate) fn leave_loop(
        &mut self,
        objects: Vec<u32>,
        continue_at: u32,
    ) -> Result<(), AllocError>
        ensures { OnOk result (LeavesLoop objects.items continue_at self.old self.new) }
    {
        let break_at = self.out.here();
        self.out.code.end_loop(break_at, continue_at)?;
        self.outside
            .truncate(self.outside.len().saturating_sub(objects.len()));
        self.objects = objects;
        Ok(())
    }
}
