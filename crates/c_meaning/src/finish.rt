ghost use Rattle.std.specs.Prelude.{◌≡◌, ℕ, ◌%◌, ◌==◌, ◌≤◌, ◌∷◌, drop, if◌then◌else◌, IfOk, OnOk, IsTrue};
ghost use Rattle.mid_code.specs.Fits.{IsValue};
ghost use Rattle.srmt_base.specs.Arith.{arith_of, is_comparison};
ghost use Rattle.srmt_base.specs.Convert.{convert_of};
ghost use Rattle.srmt_base.specs.Pointer.{pointer_difference_of, pointer_comparison_of};
ghost use Rattle.srmt_base.specs.Types.{IsPromoted};
ghost use Rattle.srmt_base.specs.declared.op.Op.TheVariants as op;
ghost use Rattle.c_types.specs.Types.{ty_of};
ghost use Rattle.c_types.specs.Table.{type_at};
ghost use Rattle.c_typed.specs.StatementViews.{program_view};
ghost use Rattle.c_typed.specs.Views.{value_view, place_view};
ghost use Rattle.source_meaning.specs.Expressions as meaning;
ghost use Rattle.source_meaning.specs.Sound.{CanRun, HasScale, HasOperands, IsComputedAt};
ghost use Rattle.source_meaning.specs.Statements.{normal};
ghost use Rattle.source_meaning.specs.World.{pure, computed, reads_byte};
ghost use Rattle.c_meaning.specs.Finishing as finishing;
ghost use Rattle.c_meaning.specs.Operators.{HasScaleOf};
ghost use Rattle.c_meaning.specs.Pending.{does, finish};
ghost use Rattle.c_meaning.specs.Runs.{types_of, Frames, Steps, IsSound, Falls, of_one, of_two, with_result, going_with, work_with};
ghost use Rattle.c_meaning.specs.Told.{IsFraming};

use crate::operators::{moved, truth};
use crate::run::{Did, Run, told, trapped};
use crate::setting::{At, value_of_entity};
use c_typed::{IntegerChange, Place, PointerChange, TypedProgram, Value, ValueNode};
use c_types::TypeRef;
use srmt_base::{Event, Op, Trap, arith, convert, pointer_comparison, pointer_difference};
use std::alloc::{AllocError, Global};

/// The value of a place that changes: the old one where it comes before the change, else the new one.
fn changed(is_after: bool, old: u64, new: u64) -> u64
    requires first { IsValue old }
    requires second { IsValue new }
    ensures value { result ≡ if is_after then old else new }
    ensures small { IsValue result }
{
    if is_after { old } else { new }
}

impl<'p> Run<'p> {
    /// `-e` (C11 6.5.3.3p3).
    fn finish_minus(&mut self, at: At<'p>, line: u32, of: TypeRef) -> Result<Did, AllocError>
        requires { IsComputedAt (type_at at.program.now.types of) }
        ensures steps { let p = at.entry.program.now in
            IfOk result (Steps p (of_one p self.old (λ x. computed line (arith_of op.Sub (ty_of (type_at p.types of)) 0 x))) self.old self.new) }
        ensures frame { OnOk result (Frames self.old self.new) }
        ensures framing { IfOk result IsFraming }
    {
        let x = self.values.take();
        self.gives_or_traps(line, arith(Op::Sub, at.ty(of), 0, x))
    }

    /// `~e` (C11 6.5.3.3p4).
    fn finish_complement(&mut self, at: At<'p>, line: u32, of: TypeRef) -> Result<Did, AllocError>
        requires { IsComputedAt (type_at at.program.now.types of) }
        ensures steps { let p = at.entry.program.now in
            IfOk result (Steps p (of_one p self.old (λ x. computed line (arith_of op.Xor (ty_of (type_at p.types of)) x 4294967295))) self.old self.new) }
        ensures frame { OnOk result (Frames self.old self.new) }
        ensures framing { IfOk result IsFraming }
    {
        let x = self.values.take();
        self.gives_or_traps(line, arith(Op::Xor, at.ty(of), x, 4_294_967_295))
    }

    /// `!e`: 1 where the operand is 0 (C11 6.5.3.3p5).
    fn finish_negation(&mut self, at: At<'p>) -> Result<Did, AllocError>
        ensures steps { let p = at.entry.program.now in IfOk result (Steps p (of_one p self.old (λ x. pure (if x == 0 then 1 else 0))) self.old self.new) }
        ensures frame { OnOk result (Frames self.old self.new) }
        ensures framing { IfOk result IsFraming }
    {
        let x = self.values.take();
        self.gives(u64::from(x == 0))
    }

    /// 1 where the operand is not 0 (C11 6.3.1.2, 6.5.13p3, 6.5.14p3).
    fn finish_truth(&mut self, at: At<'p>) -> Result<Did, AllocError>
        ensures steps { let p = at.entry.program.now in IfOk result (Steps p (of_one p self.old (λ x. pure (meaning.truth x))) self.old self.new) }
        ensures frame { OnOk result (Frames self.old self.new) }
        ensures framing { IfOk result IsFraming }
    {
        let x = self.values.take();
        self.gives(truth(x))
    }

    /// An integer at another type (C11 6.3.1.3).
    fn finish_conversion(
        &mut self,
        at: At<'p>,
        from: TypeRef,
        to: TypeRef,
    ) -> Result<Did, AllocError>
        ensures steps { let p = at.entry.program.now in
            IfOk result (Steps p (of_one p self.old (λ x. pure (convert_of (ty_of (type_at p.types from)) (ty_of (type_at p.types to)) x))) self.old self.new) }
        ensures frame { OnOk result (Frames self.old self.new) }
        ensures framing { IfOk result IsFraming }
    {
        let x = self.values.take();
        self.gives(convert(at.ty(from), at.ty(to), x))
    }

    /// An operator on integers (C11 6.5.5 to 6.5.12).
    fn finish_arithmetic(
        &mut self,
        at: At<'p>,
        op: Op,
        line: u32,
        of: TypeRef,
    ) -> Result<Did, AllocError>
        requires { IsComputedAt (type_at at.program.now.types of) }
        ensures steps { let p = at.entry.program.now in
            IfOk result (Steps p (of_two p self.old (λ x y. computed line (arith_of op (ty_of (type_at p.types of)) x y))) self.old self.new) }
        ensures frame { OnOk result (Frames self.old self.new) }
        ensures framing { IfOk result IsFraming }
    {
        let y = self.values.take();
        let x = self.values.take();
        self.gives_or_traps(line, arith(op, at.ty(of), x, y))
    }

    /// A pointer and an integer, the pointer or the integer first (C11 6.5.6p8).
    pub(crate) fn finish_sum(
        &mut self,
        at: At<'p>,
        line: u32,
        is_less: bool,
        pointer_first: bool,
        a: TypeRef,
        b: TypeRef,
    ) -> Result<Did, AllocError>
        requires { HasScaleOf pointer_first (type_at at.program.now.types a) (type_at at.program.now.types b) }
        ensures steps { let p = at.entry.program.now in
            IfOk result (Steps p (of_two p self.old (meaning.moved line is_less pointer_first (type_at p.types a) (type_at p.types b))) self.old self.new) }
        ensures frame { OnOk result (Frames self.old self.new) }
        ensures framing { IfOk result IsFraming }
    {
        let y = self.values.take();
        let x = self.values.take();
        self.gives_or_traps(line, moved(at, is_less, pointer_first, a, b, x, y))
    }

    /// Two pointers subtracted (C11 6.5.6p9).
    fn finish_difference(&mut self, at: At<'p>, line: u32, of: TypeRef) -> Result<Did, AllocError>
        requires { HasScale (type_at at.program.now.types of) }
        ensures steps { let p = at.entry.program.now in
            let scale = meaning.scale_of (type_at p.types of) in
            IfOk result (Steps p (of_two p self.old (λ x y. computed line (pointer_difference_of x y scale))) self.old self.new) }
        ensures frame { OnOk result (Frames self.old self.new) }
        ensures framing { IfOk result IsFraming }
    {
        let y = self.values.take();
        let x = self.values.take();
        self.gives_or_traps(line, pointer_difference(x, y, at.scale(of)))
    }

    /// Two pointers compared (C11 6.5.8p5, 6.5.9p6).
    fn finish_comparison(&mut self, at: At<'p>, op: Op, line: u32) -> Result<Did, AllocError>
        requires { IsTrue (is_comparison op) }
        ensures steps { let p = at.entry.program.now in
            IfOk result (Steps p (of_two p self.old (λ x y. computed line (pointer_comparison_of op x y))) self.old self.new) }
        ensures frame { OnOk result (Frames self.old self.new) }
        ensures framing { IfOk result IsFraming }
    {
        let y = self.values.take();
        let x = self.values.take();
        self.gives_or_traps(line, pointer_comparison(op, x, y))
    }

    /// A place takes a value, and another one goes onto the stack.
    fn stores(
        &mut self,
        at: At<'p>,
        place: &Place,
        address: u64,
        value: u64,
        given: u64,
    ) -> Result<Did, AllocError>
        requires address { IsValue address }
        requires value { IsValue value }
        requires given { IsValue given }
        ensures steps { let p = at.entry.program.now in
            IfOk result (Steps p (finishing.stored at.entry (place_view (types_of p) place.now) address value given self.old) self.old self.new) }
        ensures frame { OnOk result (Frames self.old self.new) }
        ensures framing { IfOk result IsFraming }
    {
        let location = at.located(place, address);
        match self.world.store(location, value) {
            Ok(event) => {
                self.values.push(given)?;
                Ok(told(event))
            }
            Err(end) => Ok(Did::Trapped(end)),
        }
    }

    /// `l = e` (C11 6.5.16p3).
    fn finish_assignment(&mut self, at: At<'p>, place: &Place) -> Result<Did, AllocError>
        ensures steps { let p = at.entry.program.now in
            IfOk result (Steps p (finishing.assigned at.entry (place_view (types_of p) place.now) self.old) self.old self.new) }
        ensures frame { OnOk result (Frames self.old self.new) }
        ensures framing { IfOk result IsFraming }
    {
        let value = self.values.take();
        let address = self.values.take();
        self.stores(at, place, address, value, value)
    }

    /// `l op= e`, `++l`, `l++` on integers (C11 6.5.16.2p3, 6.5.3.1p2, 6.5.2.4p2).
    fn finish_update(
        &mut self,
        at: At<'p>,
        change: IntegerChange,
        place: &Place,
    ) -> Result<Did, AllocError>
        requires { IsPromoted change.ty }
        ensures steps { let p = at.entry.program.now in
            IfOk result (Steps p (finishing.updated at.entry change (place_view (types_of p) place.now) self.old) self.old self.new) }
        ensures frame { OnOk result (Frames self.old self.new) }
        ensures framing { IfOk result IsFraming }
    {
        let by = self.values.take();
        let old = self.values.take();
        let address = self.values.take();
        let ty = at.ty(place.ty.target);
        let operand = convert(ty, change.ty, old);
        match arith(change.op, change.ty, operand, by) {
            Ok(outcome) => {
                let new = convert(change.ty, ty, outcome);
                let given = changed(change.is_after, old, new);
                self.stores(at, place, address, new, given)
            }
            Err(trap) => Ok(trapped(trap, change.at)),
        }
    }

    /// The same on a pointer.
    fn finish_move(
        &mut self,
        at: At<'p>,
        change: PointerChange,
        place: &Place,
        by: TypeRef,
    ) -> Result<Did, AllocError>
        requires { HasScale (type_at at.program.now.types place.now.ty.target) }
        ensures steps { let p = at.entry.program.now in
            let l = place_view (types_of p) place.now in
            IfOk result (Steps p (finishing.pointer_moved at.entry change l (type_at p.types by) self.old) self.old self.new) }
        ensures frame { OnOk result (Frames self.old self.new) }
        ensures framing { IfOk result IsFraming }
    {
        let y = self.values.take();
        let old = self.values.take();
        let address = self.values.take();
        match moved(at, change.is_less, true, place.ty.target, by, old, y) {
            Ok(new) => {
                let given = changed(change.is_after, old, new);
                self.stores(at, place, address, new, given)
            }
            Err(trap) => Ok(trapped(trap, change.at)),
        }
    }

    /// The byte is written as an `unsigned char` (C11 7.21.7.8).
    fn finish_putchar(&mut self, at: At<'p>) -> Result<Did, AllocError>
        ensures steps { let p = at.entry.program.now in IfOk result (Steps p (finishing.put p self.old) self.old self.new) }
        ensures frame { OnOk result (Frames self.old self.new) }
        ensures framing { IfOk result IsFraming }
    {
        let byte = self.values.take() % 256;
        self.values.push(byte)?;
        Ok(Did::Told(Event::Byte(byte as u8)))
    }

    /// The next byte of the input, or EOF (C11 7.21.7.6).
    fn finish_getchar(&mut self, at: At<'p>) -> Result<Did, AllocError>
        ensures steps { let p = at.entry.program.now in IfOk result (Steps p (with_result p self.old reads_byte) self.old self.new) }
        ensures frame { OnOk result (Frames self.old self.new) }
        ensures framing { IfOk result IsFraming }
    {
        let byte = self.world.input.next();
        self.gives(byte)
    }

    /// A call of a function (C11 6.5.2.2).
    fn finish_call(
        &mut self,
        alloc: Global,
        at: At<'p>,
        line: u32,
        entity: u32,
        count: usize,
    ) -> Result<Did, AllocError>
        requires can { CanRun (program_view at.program.now) }
        requires sound { IsSound at.program.now self.old }
        requires here { at.current ≡ self.old.current }
        ensures steps { let p = at.entry.program.now in IfOk result (Steps p (finishing.called p line entity count self.old) self.old self.new) }
        ensures sound { OnOk result (IsSound at.entry.program.now self.new) }
        ensures turned { IfOk result (Falls at.entry.program.now 0 self.old self.new) }
    {
        let arguments = self.values.take_last(count)?;
        let number = value_of_entity(at.program, entity);
        self.enter(alloc, at, line, number, arguments)
    }

    /// A call of what a value points to.
    fn finish_call_through(
        &mut self,
        alloc: Global,
        at: At<'p>,
        line: u32,
        count: usize,
    ) -> Result<Did, AllocError>
        requires can { CanRun (program_view at.program.now) }
        requires sound { IsSound at.program.now self.old }
        requires here { at.current ≡ self.old.current }
        ensures steps { let p = at.entry.program.now in IfOk result (Steps p (finishing.called_through p line count self.old) self.old self.new) }
        ensures sound { OnOk result (IsSound at.entry.program.now self.new) }
        ensures turned { IfOk result (Falls at.entry.program.now 0 self.old self.new) }
    {
        let arguments = self.values.take_last(count)?;
        let number = self.values.take();
        if number == 0 {
            return Ok(trapped(Trap::NullPointer, line));
        }
        self.enter(alloc, at, line, number, arguments)
    }

    /// All operands of a value are on the stack, and its value takes their place.
    pub(crate) fn finish(
        &mut self,
        alloc: Global,
        at: At<'p>,
        value: &'p Value,
    ) -> Result<Did, AllocError>
        requires can { CanRun (program_view at.program.now) }
        requires has { HasOperands (value_view (types_of at.program.now) value.now) }
        requires sound { IsSound at.program.now self.old }
        requires here { at.current ≡ self.old.current }
        ensures steps { let p = at.entry.program.now in
            IfOk result (Steps p (λ bound. going_with p bound (does (finish (value_view (types_of p) value.now))) self.old) self.old self.new) }
        ensures sound { OnOk result (IsSound at.entry.program.now self.new) }
        ensures falls { let p = at.entry.program.now in
            IfOk result (Falls p (work_with p (does (finish (value_view (types_of p) value.now))) self.old) self.old self.new) }
    {
        match &value.node {
            ValueNode::Minus(e) => self.finish_minus(at, value.line, e.get().ty),
            ValueNode::Complement(e) => self.finish_complement(at, value.line, e.get().ty),
            ValueNode::Negation(_) => self.finish_negation(at),
            ValueNode::Conjunction(..) | ValueNode::Disjunction(..) | ValueNode::ToBool(..) => {
                self.finish_truth(at)
            }
            ValueNode::Conversion(_, e) => self.finish_conversion(at, e.get().ty, value.ty),
            ValueNode::Arithmetic(op, line, a, _) => {
                self.finish_arithmetic(at, *op, *line, a.get().ty)
            }
            ValueNode::Sum(line, is_less, pointer_first, a, b) => {
                let (a, b) = (a.get().ty, b.get().ty);
                self.finish_sum(at, *line, *is_less, *pointer_first, a, b)
            }
            ValueNode::Difference(line, a, _) => self.finish_difference(at, *line, a.get().ty),
            ValueNode::Comparison(op, line, _, _) => self.finish_comparison(at, *op, *line),
            ValueNode::Assignment(place, _) => self.finish_assignment(at, place.get()),
            ValueNode::Update(change, place, _) => self.finish_update(at, *change, place.get()),
            ValueNode::Move(change, place, e) => {
                self.finish_move(at, *change, place.get(), e.get().ty)
            }
            ValueNode::Call(line, entity, arguments) => {
                self.finish_call(alloc, at, *line, *entity, arguments.len())
            }
            ValueNode::CallThrough(line, _, arguments) => {
                self.finish_call_through(alloc, at, *line, arguments.len())
            }
            ValueNode::Putchar(..) => self.finish_putchar(at),
            ValueNode::Getchar(_) => self.finish_getchar(at),
            ValueNode::Exit(..) => Ok(Did::Exited(self.values.take())),
            ValueNode::Constant(_) | ValueNode::Null | ValueNode::Read(_) => Ok(Did::Went),
            ValueNode::FirstElement(_) | ValueNode::Address(_) | ValueNode::Function(_) => {
                Ok(Did::Went)
            }
            ValueNode::Choice(..) | ValueNode::Sequence(..) => Ok(Did::Went),
            ValueNode::Requalified(_) | ValueNode::Discarded(_) => Ok(Did::Went),
        }
    }
}
