ghost use Rattle.std.specs.Prelude.{◌≡◌, ℕ, ◌∷◌, List, [], length, Some, None, option_map, OnOk, IfOk};
ghost use Rattle.mid_code.specs.declared.mid.Mid.TheVariants as mid_of;
ghost use Rattle.lower.specs.Emitting.{at_line};
ghost use Rattle.lower.specs.SoFar.{Leads, leads_of, with_line, landed, leading_to, IsHere};
ghost use Rattle.lower.specs.Instructions.{told, instruction_view, line_view};
ghost use Rattle.lower.specs.Drafts.{code_of, leads_in, known_leads, places_by, line_of, IsBelow, TakesLines};

use mid_code::{Mid, MidLine};
use std::alloc::{AllocError, Global};
use std::marker::Model;

/// The most instructions of a function.
const MOST_INSTRUCTIONS: usize = 65_535;

/// Where an instruction leads.
#[derive(Clone, Copy)]
enum Target {
    /// Where it says.
    Known,
    /// Behind a loop, by its number.
    Break(usize),
    /// To the next round of a loop.
    Continue(usize),
}

/// An instruction of which it may not be known yet where it leads.
#[derive(Clone, Copy)]
struct Draft {
    line: u32,
    mid: Mid,
    target: Target,
}

/// Where the jumps of a loop lead: its end, and its next round.
#[derive(Clone, Copy)]
struct Places {
    break_at: u32,
    continue_at: u32,
}

/// Those of a loop that is not over.
const UNKNOWN: Places = Places {
    break_at: 0,
    continue_at: 0,
};

/// The code of a function so far. Where it is too long, what it holds tells nothing.
#[derive(Drop)]
pub(crate) struct Code {
    drafts: Vec<Draft>,
    is_long: bool,
    /// The loops so far, by their numbers. The first stands for the function.
    loops: Vec<Places>,
    /// The number of the innermost loop that is open, and those of the loops around it.
    current: usize,
    outer: Vec<usize>,
}

impl Model for Code {
    ghost use Rattle.lower.specs.Drafts.{Held, IsHeld};

    ghost Value = { Held };

    ghost view = { λ c. record { is_long = c.is_long; loops = c.loops.items; current = c.current; outer = c.outer.items; drafts = c.drafts.items } };

    ghost invariant = { λ c.
        IsHeld (record { is_long = c.is_long; loops = c.loops.items; current = c.current; outer = c.outer.items; drafts = c.drafts.items }) };
}

/// The same instruction with another place, where it is a jump.
fn led(mid: Mid, place: u32) -> Mid
    ensures { instruction_view result ≡ leading_to place (instruction_view mid) }
{
    match mid {
        Mid::Jump { .. } => Mid::Jump { place },
        Mid::JumpZ { source, .. } => Mid::JumpZ { source, place },
        Mid::JumpN { source, .. } => Mid::JumpN { source, place },
        other => other,
    }
}

impl Code {
    /// No instruction.
    pub(crate) fn new(alloc: Global) -> Result<Self, AllocError>
        ensures { IfOk result (λ code. (leads : List Leads) → code_of code leads ≡ Some []) }
    {
        let mut loops = Vec::new(alloc);
        loops.push(UNKNOWN)?;
        Ok(Code {
            drafts: Vec::new(alloc),
            is_long: false,
            loops,
            current: 0,
            outer: Vec::new(alloc),
        })
    }

    /// The place of the next instruction, which is 65,536 where the code is too long.
    pub(crate) fn here(&self) -> u32
        ensures { (leads : List Leads) → IsHere result (code_of self.now leads) }
    {
        if self.is_long {
            MOST_INSTRUCTIONS as u32 + 1
        } else {
            self.drafts.len() as u32
        }
    }

    /// An instruction more, unless there are too many.
    fn draft(&mut self, draft: Draft) -> Result<(), AllocError>
        requires { IsBelow (length self.old.loops) draft }
        ensures { OnOk result ((leads : List Leads) → code_of self.new leads ≡ with_line (line_of (leads_in self.old leads) draft) (code_of self.old leads)) }
    {
        if self.drafts.len() >= MOST_INSTRUCTIONS {
            self.is_long = true;
            return Ok(());
        }
        self.drafts.push(draft)?;
        Ok(())
    }

    /// An instruction more.
    pub(crate) fn emit(&mut self, line: u32, mid: Mid) -> Result<(), AllocError>
        ensures { OnOk result ((leads : List Leads) → code_of self.new leads ≡ with_line (told line mid) (code_of self.old leads)) }
    {
        self.draft(Draft {
            line,
            mid,
            target: Target::Known,
        })
    }

    /// A jump behind the innermost loop.
    pub(crate) fn emit_break(&mut self, line: u32) -> Result<(), AllocError>
        ensures { OnOk result
            ((leads : List Leads) → code_of self.new leads ≡ with_line (at_line line (mid_of.Jump (leads_of leads).break_at)) (code_of self.old leads)) }
    {
        self.draft(Draft {
            line,
            mid: Mid::Jump { place: 0 },
            target: Target::Break(self.current),
        })
    }

    /// A jump to the next round of the innermost loop.
    pub(crate) fn emit_continue(&mut self, line: u32) -> Result<(), AllocError>
        ensures { OnOk result
            ((leads : List Leads) → code_of self.new leads ≡ with_line (at_line line (mid_of.Jump (leads_of leads).continue_at)) (code_of self.old leads)) }
    {
        self.draft(Draft {
            line,
            mid: Mid::Jump { place: 0 },
            target: Target::Continue(self.current),
        })
    }

    /// The jump at a place leads to another one.
    pub(crate) fn lead(&mut self, at: u32, place: u32)
        ensures { (leads : List Leads) → code_of self.new leads ≡ option_map (landed at place) (code_of self.old leads) }
    {
        let at = at as usize;
        if at >= self.drafts.len() {
            return;
        }
        let draft = self.drafts[at];
        self.drafts[at] = Draft {
            line: draft.line,
            mid: led(draft.mid, place),
            target: Target::Known,
        };
    }

    /// A loop begins. The code so far has none of its jumps.
    pub(crate) fn begin_loop(&mut self) -> Result<(), AllocError>
        ensures { OnOk result ((l : Leads) (leads : List Leads) → code_of self.new (l ∷ leads) ≡ code_of self.old leads) }
    {
        let number = self.loops.len();
        self.loops.push(UNKNOWN)?;
        self.outer.push(self.current)?;
        self.current = number;
        Ok(())
    }

    /// The innermost loop ends: it is known where its jumps lead.
    pub(crate) fn end_loop(&mut self, break_at: u32, continue_at: u32) -> Result<(), AllocError>
        ensures { OnOk result
            ((leads : List Leads) → code_of self.new leads ≡ code_of self.old (record { break_at = break_at; continue_at = continue_at } ∷ leads)) }
    {
        let places = Places {
            break_at,
            continue_at,
        };
        match self.outer.pop() {
            Some(number) => {
                self.loops[self.current] = places;
                self.current = number;
            }
            None => {
                let number = self.loops.len();
                self.loops.push(UNKNOWN)?;
                self.loops[self.current] = places;
                self.current = number;
            }
        }
        Ok(())
    }

    /// The instructions, or `None` where they are too many.
    pub(crate) fn into_lines(self, alloc: Global) -> Result<Option<Vec<MidLine>>, AllocError>
        ensures { IfOk result (TakesLines (code_of self [])) }
    {
        if self.is_long {
            return Ok(None);
        }
        let mut lines = Vec::with_capacity(alloc, self.drafts.len())?;
        for draft in &self.drafts {
            lines.push(draft.at(&self.loops))?;
        }
        Ok(Some(lines))
    }
}

impl Draft {
    /// The instruction, where each loop has its places.
    fn at(&self, loops: &[Places]) -> MidLine
        ensures { line_view result ≡ line_of (known_leads loops.now) self.now }
    {
        let mid = match self.target {
            Target::Known => self.mid,
            Target::Break(number) => led(self.mid, places_of(loops, number).break_at),
            Target::Continue(number) => led(self.mid, places_of(loops, number).continue_at),
        };
        MidLine {
            line: self.line,
            mid,
        }
    }
}

/// Where the jumps of a loop lead.
fn places_of(loops: &[Places], number: usize) -> Places
    ensures { result ≡ places_by loops.now number }
{
    loops.get(number).copied().unwrap_or(UNKNOWN)
}
