ghost use Rattle.std.specs.Prelude.{◌≡◌, ℕ, List};
ghost use Rattle.srmt_base.specs.declared.op.Op.TheVariants as op_is;
ghost use Rattle.c_types.specs.declared.type_ref.Row.{Row};
ghost use Rattle.lower.specs.Emitting.{target_for as target_of_type};
ghost use Rattle.lower.specs.Expressions.{constant_to, constant_in, zero_for, converts, converted as converted_to, computed, minus_of, complement_of, compared_with_null, compared_with_zero, negated as negated_by, truth_of, pointers_subtracted, pointers_compared, compared as compared_by, function_in, pointer_moved, moves_pointer};
ghost use Rattle.lower.specs.Emits.{Emits, itself, nothing, rows_of, types_of};

use crate::emitter::Emitter;
use crate::inside::{Inside, behind};
use crate::refusal::LowerRefusal;
use c_types::TypeRef;
use mid_code::Mid;
use srmt_base::{Op, Ty};

/// A pointer that moves by an integer, at the line of the operator.
#[derive(Clone, Copy)]
pub(crate) struct Moving {
    pub(crate) at: u32,
    pub(crate) is_less: bool,
    pub(crate) pointer_type: TypeRef,
    pub(crate) index_type: TypeRef,
}

impl Emitter {
    /// A constant in a register that is known.
    pub(crate) fn set(&mut self, register: u16, value: u64, line: u32) -> Result<u16, LowerRefusal>
        ensures { (rows : List Row) → Emits itself rows self.old self.new result (constant_to line value register) }
    {
        self.emit(
            line,
            Mid::Const {
                target: register,
                value,
            },
        )?;
        Ok(register)
    }

    /// A constant in a temporary.
    pub(crate) fn constant(&mut self, value: u64, k: usize, line: u32) -> Result<u16, LowerRefusal>
        ensures { (rows : List Row) → Emits itself rows self.old self.new result (constant_in line k value) }
    {
        let target = self.temporary(k, line)?;
        self.set(target, value, line)
    }

    /// Where a value of a type goes: a new address, or a temporary.
    pub(crate) fn target_for(
        &mut self,
        at: Inside,
        of: TypeRef,
        k: usize,
        line: u32,
    ) -> Result<u16, LowerRefusal>
        ensures { Emits itself (rows_of at.entry) self.old self.new result (target_of_type (types_of at.entry of) k line) }
    {
        if at.is_address(of) {
            self.new_address(line)
        } else {
            self.temporary(k, line)
        }
    }

    /// A null pointer, or 0.
    pub(crate) fn null(
        &mut self,
        at: Inside,
        of: TypeRef,
        k: usize,
        line: u32,
    ) -> Result<u16, LowerRefusal>
        ensures { Emits itself (rows_of at.entry) self.old self.new result
            (zero_for (types_of at.entry of) k line) }
    {
        let target = self.target_for(at, of, k, line)?;
        self.set(target, 0, line)
    }

    /// A conversion in place, where two types differ.
    pub(crate) fn convert(
        &mut self,
        line: u32,
        from: Ty,
        to: Ty,
        register: u16,
    ) -> Result<(), LowerRefusal>
        ensures { (rows : List Row) → Emits nothing rows self.old self.new result (converts line from to register) }
    {
        if from == to {
            return Ok(());
        }
        self.emit(
            line,
            Mid::Conv {
                from,
                to,
                target: register,
                source: register,
            },
        )
    }

    /// An integer at another type (C11 6.3.1.3).
    pub(crate) fn converted(
        &mut self,
        line: u32,
        from: Ty,
        to: Ty,
        register: u16,
    ) -> Result<u16, LowerRefusal>
        ensures { (rows : List Row) → Emits itself rows self.old self.new result (converted_to line from to register) }
    {
        self.convert(line, from, to, register)?;
        Ok(register)
    }

    /// An operator on integers, in place of its left operand (C11 6.5.5 to 6.5.12).
    pub(crate) fn compute(
        &mut self,
        op: Op,
        ty: Ty,
        at: u32,
        left: u16,
        right: u16,
    ) -> Result<u16, LowerRefusal>
        ensures { (rows : List Row) → Emits itself rows self.old self.new result (computed op ty at left right) }
    {
        self.emit(
            at,
            Mid::Arith {
                op,
                ty,
                target: left,
                left,
                right,
            },
        )?;
        Ok(left)
    }

    /// `-e` (C11 6.5.3.3p3).
    pub(crate) fn minus(
        &mut self,
        ty: Ty,
        line: u32,
        k: usize,
        operand: u16,
    ) -> Result<u16, LowerRefusal>
        ensures { (rows : List Row) → Emits itself rows self.old self.new result (minus_of ty line k operand) }
    {
        let left = self.temporary(behind(k)?, line)?;
        self.emit(
            line,
            Mid::Const {
                target: left,
                value: 0,
            },
        )?;
        self.emit(
            line,
            Mid::Arith {
                op: Op::Sub,
                ty,
                target: operand,
                left,
                right: operand,
            },
        )?;
        Ok(operand)
    }

    /// `~e` (C11 6.5.3.3p4).
    pub(crate) fn complement(
        &mut self,
        ty: Ty,
        line: u32,
        k: usize,
        operand: u16,
    ) -> Result<u16, LowerRefusal>
        ensures { (rows : List Row) → Emits itself rows self.old self.new result (complement_of ty line k operand) }
    {
        let ones = self.temporary(behind(k)?, line)?;
        self.emit(
            line,
            Mid::Const {
                target: ones,
                value: 4_294_967_295,
            },
        )?;
        self.compute(Op::Xor, ty, line, operand, ones)
    }

    /// Compares a pointer with null, into a temporary.
    fn compare_with_null(
        &mut self,
        op: Op,
        line: u32,
        k: usize,
        left: u16,
    ) -> Result<u16, LowerRefusal>
        ensures { (rows : List Row) → Emits itself rows self.old self.new result (compared_with_null op line k left) }
    {
        let right = self.new_address(line)?;
        self.emit(
            line,
            Mid::Const {
                target: right,
                value: 0,
            },
        )?;
        let target = self.temporary(k, line)?;
        self.emit(
            line,
            Mid::PtrCmp {
                op,
                target,
                left,
                right,
            },
        )?;
        Ok(target)
    }

    /// Compares a number with 0, in its place.
    fn compare_with_zero(
        &mut self,
        ty: Ty,
        line: u32,
        k: usize,
        operand: u16,
    ) -> Result<u16, LowerRefusal>
        ensures { (rows : List Row) → Emits itself rows self.old self.new result (compared_with_zero ty line k operand) }
    {
        let zero = self.temporary(behind(k)?, line)?;
        self.emit(
            line,
            Mid::Const {
                target: zero,
                value: 0,
            },
        )?;
        self.compute(Op::Eq, ty, line, operand, zero)
    }

    /// `!e`: whether the operand is 0 (C11 6.5.3.3p5).
    pub(crate) fn negate(
        &mut self,
        at: Inside,
        of: TypeRef,
        line: u32,
        k: usize,
        operand: u16,
    ) -> Result<u16, LowerRefusal>
        ensures { Emits itself (rows_of at.entry) self.old self.new result (negated_by (types_of at.entry of) line k operand) }
    {
        if at.is_address(of) {
            self.compare_with_null(Op::Eq, line, k, operand)
        } else {
            self.compare_with_zero(at.compared_at(of), line, k, operand)
        }
    }

    /// A pointer converted to `_Bool` (C11 6.3.1.2).
    pub(crate) fn truth(
        &mut self,
        at: Inside,
        of: TypeRef,
        line: u32,
        first: u32,
        k: usize,
        operand: u16,
    ) -> Result<u16, LowerRefusal>
        ensures { Emits itself (rows_of at.entry) self.old self.new result (truth_of (types_of at.entry of) line first k operand) }
    {
        if at.is_address(of) {
            self.compare_with_null(Op::Ne, line, k, operand)
        } else {
            self.converted(first, Ty::UInt, Ty::Bool, operand)
        }
    }

    /// Two pointers subtracted (C11 6.5.6p9).
    pub(crate) fn subtract_pointers(
        &mut self,
        inside: Inside,
        of: TypeRef,
        line: u32,
        at: u32,
        k: usize,
        left: u16,
        right: u16,
    ) -> Result<u16, LowerRefusal>
        ensures { Emits itself (rows_of inside.entry) self.old self.new result
            (pointers_subtracted (types_of inside.entry of) line at k left right) }
    {
        let scale = inside.scale(of)?;
        let target = self.temporary(k, line)?;
        self.emit(
            at,
            Mid::PtrDiff {
                target,
                left,
                right,
                scale,
            },
        )?;
        Ok(target)
    }

    /// Two pointers to objects compared.
    fn compare_pointers(
        &mut self,
        op: Op,
        line: u32,
        at: u32,
        k: usize,
        left: u16,
        right: u16,
    ) -> Result<u16, LowerRefusal>
        ensures { (rows : List Row) → Emits itself rows self.old self.new result (pointers_compared op line at k left right) }
    {
        let target = self.temporary(k, line)?;
        self.emit(
            at,
            Mid::PtrCmp {
                op,
                target,
                left,
                right,
            },
        )?;
        Ok(target)
    }

    /// Two pointers compared (C11 6.5.8, 6.5.9).
    pub(crate) fn compare(
        &mut self,
        inside: Inside,
        of: TypeRef,
        op: Op,
        line: u32,
        at: u32,
        k: usize,
        left: u16,
        right: u16,
    ) -> Result<u16, LowerRefusal>
        ensures { Emits itself (rows_of inside.entry) self.old self.new result
            (compared_by (types_of inside.entry of) op line at k left right) }
    {
        if inside.is_address(of) {
            self.compare_pointers(op, line, at, k, left, right)
        } else {
            self.compute(op, Ty::UInt, at, left, right)
        }
    }

    /// The number of a function, as a value.
    pub(crate) fn function_value(
        &mut self,
        number: u16,
        line: u32,
        k: usize,
    ) -> Result<u16, LowerRefusal>
        ensures { (rows : List Row) → Emits itself rows self.old self.new result (function_in number line k) }
    {
        let target = self.temporary(k, line)?;
        self.emit(
            line,
            Mid::FunAddr {
                target,
                function: number,
            },
        )?;
        Ok(target)
    }

    /// A pointer moves, to a new register (C11 6.5.6p8).
    pub(crate) fn move_pointer(
        &mut self,
        inside: Inside,
        line: u32,
        by: Moving,
        pointer: u16,
        index: u16,
    ) -> Result<u16, LowerRefusal>
        ensures { Emits itself (rows_of inside.entry) self.old self.new result
            (pointer_moved line by.at by.is_less (types_of inside.entry by.pointer_type) (types_of inside.entry by.index_type) pointer index) }
    {
        let scale = inside.scale(by.pointer_type)?;
        let target = self.new_address(line)?;
        self.emit(
            by.at,
            Mid::PtrAdd {
                target,
                pointer,
                index,
                ty: inside.ty(by.index_type),
                negated: by.is_less,
                scale,
            },
        )?;
        Ok(target)
    }

    /// A pointer and an integer, of which the pointer stands first or second: `by` is for the pointer first.
    pub(crate) fn move_operands(
        &mut self,
        inside: Inside,
        line: u32,
        pointer_first: bool,
        by: Moving,
        left: u16,
        right: u16,
    ) -> Result<u16, LowerRefusal>
        ensures { Emits itself (rows_of inside.entry) self.old self.new result
            (moves_pointer line by.at by.is_less pointer_first (types_of inside.entry by.pointer_type) (types_of inside.entry by.index_type) left right) }
    {
        if pointer_first {
            return self.move_pointer(inside, line, by, left, right);
        }
        let swapped = Moving {
            pointer_type: by.index_type,
            index_type: by.pointer_type,
            ..by
        };
        self.move_pointer(inside, line, swapped, right, left)
    }
}
