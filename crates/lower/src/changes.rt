ghost use Rattle.std.specs.Prelude.{◌≡◌, ℕ, suc, if◌then◌else◌, List};
ghost use Rattle.c_types.specs.declared.type_ref.Row.{Row};
ghost use Rattle.lower.specs.Expressions.{changing_integer, changing_pointer, copied_to, widened, changed_to, integer_changed, pointer_changed};
ghost use Rattle.lower.specs.Emits.{Emits, itself, rows_of, types_of, located_view, change_view};

use crate::emitter::{Change, Emitter, Located};
use crate::inside::{Inside, behind};
use crate::operators::Moving;
use crate::refusal::LowerRefusal;
use c_typed::IntegerChange;
use c_types::TypeRef;
use mid_code::Mid;
use srmt_base::Ty;

impl Emitter {
    /// A copy of the old value, which changes.
    fn copy(&mut self, line: u32, old: u16, target: u16) -> Result<Change, LowerRefusal>
        ensures { (rows : List Row) → Emits change_view rows self.old self.new result (copied_to line old target) }
    {
        self.emit(
            line,
            Mid::Move {
                target,
                source: old,
            },
        )?;
        Ok(Change {
            old,
            changed: target,
        })
    }

    /// The old value of a place with an integer, and what becomes the new one: the same register, or a copy where the old
    /// value is the result.
    pub(crate) fn begin_update(
        &mut self,
        at: Inside,
        is_after: bool,
        line: u32,
        of: TypeRef,
        k: usize,
        located: Located,
    ) -> Result<Change, LowerRefusal>
        ensures { Emits change_view (rows_of at.entry) self.old self.new result
            (changing_integer is_after line (types_of at.entry of) k (located_view located)) }
    {
        let old = self.fetch(at, line, of, k, located)?;
        if !is_after {
            return Ok(Change { old, changed: old });
        }
        let target = self.temporary(behind(k)?, line)?;
        self.copy(line, old, target)
    }

    /// The same of a pointer.
    pub(crate) fn begin_move(
        &mut self,
        at: Inside,
        is_after: bool,
        line: u32,
        of: TypeRef,
        k: usize,
        located: Located,
    ) -> Result<Change, LowerRefusal>
        ensures { Emits change_view (rows_of at.entry) self.old self.new result
            (changing_pointer is_after line (types_of at.entry of) k (located_view located)) }
    {
        let old = self.fetch(at, line, of, k, located)?;
        if !is_after {
            return Ok(Change { old, changed: old });
        }
        let target = self.new_address(line)?;
        self.copy(line, old, target)
    }

    /// What changes at the type at which it does.
    pub(crate) fn widen(
        &mut self,
        first: u32,
        from: Ty,
        to: Ty,
        change: Change,
    ) -> Result<Change, LowerRefusal>
        ensures { (rows : List Row) → Emits change_view rows self.old self.new result (widened first from to (change_view change)) }
    {
        self.convert(first, from, to, change.changed)?;
        Ok(change)
    }

    /// A place takes its new value. The result is the old one or the new one.
    fn end_change(
        &mut self,
        is_after: bool,
        line: u32,
        located: Located,
        old: u16,
        new: u16,
    ) -> Result<u16, LowerRefusal>
        ensures { (rows : List Row) → Emits itself rows self.old self.new result (changed_to is_after line (located_view located) old new) }
    {
        self.put(line, located, new)?;
        if is_after { Ok(old) } else { Ok(new) }
    }

    /// `l op= e`, `++l`, `l++` on integers, behind `e` (C11 6.5.16.2p3, 6.5.3.1p2, 6.5.2.4p2).
    pub(crate) fn end_update(
        &mut self,
        by: IntegerChange,
        ty: Ty,
        line: u32,
        located: Located,
        change: Change,
        right: u16,
    ) -> Result<u16, LowerRefusal>
        ensures { (rows : List Row) → Emits itself rows self.old self.new result
            (integer_changed by.is_after by.op by.ty ty by.at line (located_view located) (change_view change) right) }
    {
        self.emit(
            by.at,
            Mid::Arith {
                op: by.op,
                ty: by.ty,
                target: change.changed,
                left: change.changed,
                right,
            },
        )?;
        self.convert(line, by.ty, ty, change.changed)?;
        self.end_change(by.is_after, line, located, change.old, change.changed)
    }

    /// The same on a pointer.
    pub(crate) fn end_move(
        &mut self,
        at: Inside,
        is_after: bool,
        by: Moving,
        line: u32,
        located: Located,
        change: Change,
        index: u16,
    ) -> Result<u16, LowerRefusal>
        ensures { Emits itself (rows_of at.entry) self.old self.new result
            (pointer_changed is_after by.is_less (types_of at.entry by.pointer_type) (types_of at.entry by.index_type) by.at line
            (located_view located) (change_view change) index) }
    {
        let moved = self.move_pointer(at, line, by, change.changed, index)?;
        self.end_change(is_after, line, located, change.old, moved)
    }
}
