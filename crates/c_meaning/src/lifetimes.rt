ghost use Rattle.std.specs.Prelude.{◌≡◌, ℕ, map};
ghost use Rattle.c_typed.specs.Statements.{no_items};
ghost use Rattle.c_typed.specs.StatementViews.{local_item_view, block_item_view};
ghost use Rattle.source_meaning.specs.Places.{object_begins, all_begin, all_end};
ghost use Rattle.source_meaning.specs.Statements.{locals_of, numbers_of};
ghost use Rattle.c_meaning.specs.Lifetimes.{IsReadyAt, IsPlacedAt, begins, ends};
ghost use Rattle.c_meaning.specs.Runs.{setting_of, types_of, Changes, Leaves};
ghost use Rattle.c_meaning.specs.TaskViews.{items_view};

use crate::setting::{At, cells};
use crate::store::{Stored, Trapped};
use c_typed::{BlockItem, LocalItem};

impl Stored {
    /// A local in memory begins as an object of zeros in the part of its function.
    pub(crate) fn begin_object(&mut self, at: At, number: usize) -> Result<(), Trapped>
        requires ready { IsReadyAt at }
        requires placed { IsPlacedAt at number }
        ensures changes { (bound : ℕ) → Changes (object_begins (setting_of bound at.entry) number) self.old self.new result }
        ensures budgets { self.new.budgets ≡ self.old.budgets }
    {
        let row = at.row(number);
        let cells = cells(&at.program.types, row.ty.target);
        match self.memory.begin(at.current.part, cells) {
            Ok(object) => {
                self.locals.set(number, u64::from(object) * 65536);
                Ok(())
            }
            Err(trap) => Err(Trapped {
                trap,
                line: row.line,
            }),
        }
    }

    /// A local begins; one in a register as 0.
    fn begin(&mut self, at: At, number: usize) -> Result<(), Trapped>
        requires ready { IsReadyAt at }
        ensures changes { (bound : ℕ) → Changes (begins (setting_of bound at.entry) number) self.old self.new result }
        ensures budgets { self.new.budgets ≡ self.old.budgets }
    {
        if at.row(number).is_placed {
            self.begin_object(at, number)
        } else {
            self.locals.set(number, 0);
            Ok(())
        }
    }

    /// A local ends.
    pub(crate) fn end(&mut self, at: At, number: usize)
        ensures leaves { (bound : ℕ) → Leaves (ends (setting_of bound at.entry) number) self.old self.new }
        ensures budgets { self.new.budgets ≡ self.old.budgets }
    {
        if at.row(number).is_placed {
            let object = self.locals.get(number) / 65536;
            self.memory.end(object as u32);
        }
    }

    /// The locals of a declaration begin, in order.
    pub(crate) fn begin_locals(&mut self, at: At, locals: &[LocalItem]) -> Result<(), Trapped>
        requires ready { IsReadyAt at }
        ensures changes { (bound : ℕ) → let names = numbers_of (map (local_item_view (types_of at.entry.program.now)) locals.now) in
            Changes (all_begin (setting_of bound at.entry) names) self.old self.new result }
        ensures budgets { self.new.budgets ≡ self.old.budgets }
    {
        for local in locals {
            self.begin(at, local.number as usize)?;
        }
        Ok(())
    }

    /// The locals of a declaration end, the last first.
    pub(crate) fn end_locals(&mut self, at: At, locals: &[LocalItem])
        ensures leaves { (bound : ℕ) → let names = numbers_of (map (local_item_view (types_of at.entry.program.now)) locals.now) in
            Leaves (all_end (setting_of bound at.entry) names) self.old self.new }
        ensures budgets { self.new.budgets ≡ self.old.budgets }
    {
        for local in locals.iter().rev() {
            self.end(at, local.number as usize);
        }
    }

    /// The locals that an item of a block declares begin, in order.
    fn begin_item(&mut self, at: At, item: &BlockItem) -> Result<(), Trapped>
        requires ready { IsReadyAt at }
        ensures changes { (bound : ℕ) → let names = locals_of (block_item_view (types_of at.entry.program.now) item.now no_items) in
            Changes (all_begin (setting_of bound at.entry) names) self.old self.new result }
        ensures budgets { self.new.budgets ≡ self.old.budgets }
    {
        match item {
            BlockItem::Declaration(locals) => self.begin_locals(at, locals.as_slice()),
            BlockItem::Statement(_) => Ok(()),
        }
    }

    /// They end, the last first.
    fn end_item(&mut self, at: At, item: &BlockItem)
        ensures leaves { (bound : ℕ) → let names = locals_of (block_item_view (types_of at.entry.program.now) item.now no_items) in
            Leaves (all_end (setting_of bound at.entry) names) self.old self.new }
        ensures budgets { self.new.budgets ≡ self.old.budgets }
    {
        match item {
            BlockItem::Declaration(locals) => self.end_locals(at, locals.as_slice()),
            BlockItem::Statement(_) => {}
        }
    }

    /// The locals that the items of a block declare begin, in order.
    pub(crate) fn begin_block(&mut self, at: At, items: &[BlockItem]) -> Result<(), Trapped>
        requires ready { IsReadyAt at }
        ensures changes { (bound : ℕ) → let names = locals_of (items_view (types_of at.entry.program.now) items.now) in
            Changes (all_begin (setting_of bound at.entry) names) self.old self.new result }
        ensures budgets { self.new.budgets ≡ self.old.budgets }
    {
        for item in items {
            self.begin_item(at, item)?;
        }
        Ok(())
    }

    /// They end, the last first.
    pub(crate) fn end_block(&mut self, at: At, items: &[BlockItem])
        ensures leaves { (bound : ℕ) → let names = locals_of (items_view (types_of at.entry.program.now) items.now) in
            Leaves (all_end (setting_of bound at.entry) names) self.old self.new }
        ensures budgets { self.new.budgets ≡ self.old.budgets }
    {
        for item in items.iter().rev() {
            self.end_item(at, item);
        }
    }
}
