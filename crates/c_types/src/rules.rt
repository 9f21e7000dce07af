ghost use Rattle.std.specs.Prelude.{◌≡◌, IfOk};
ghost use Rattle.c_types.specs.Types.{point_to_one as one_target};
ghost use Rattle.c_types.specs.Rules as rule;
ghost use Rattle.c_types.specs.Table.{type_at, operand_at};

use crate::form::BinaryForm;
use crate::integer::{promoted, usual};
use crate::operand::OperandRef;
use crate::table::Types;
use crate::type_ref::TypeRef;
use srmt_base::Op;

impl Types {
    /// The number of a rule whose cases do not allow two operands, or 14 where one is void.
    pub(crate) fn refused(&self, number: u8, a: TypeRef, b: TypeRef) -> u8
        ensures { result ≡ rule.refused_rule number (type_at self.now a) (type_at self.now b) }
    {
        if self.is_void(a) || self.is_void(b) {
            14
        } else {
            number
        }
    }

    /// A value that is there, and is no integer.
    fn is_other(&self, of: TypeRef) -> bool
        ensures { result ≡ rule.is_other (type_at self.now of) }
    {
        !(self.is_integer(of) || self.is_void(of))
    }

    /// `* / %` and `& ^ |` (C11 6.5.5p2, 6.5.10p2, 6.5.11p2, 6.5.12p2).
    fn arithmetic_form(&self, a: TypeRef, b: TypeRef) -> Result<BinaryForm, u8>
        ensures exact { result ≡ rule.arithmetic_form (type_at self.now a) (type_at self.now b) }
        ensures promoted { IfOk result rule.IsPromotedForm }
    {
        if self.is_integer(a) && self.is_integer(b) {
            Ok(BinaryForm::Integers(usual(self.ty(a), self.ty(b))))
        } else if self.is_other(a) || self.is_other(b) {
            Err(1)
        } else {
            Err(14)
        }
    }

    /// `<< >>` (C11 6.5.7p2).
    fn shift_form(&self, a: TypeRef, b: TypeRef) -> Result<BinaryForm, u8>
        ensures exact { result ≡ rule.shift_form (type_at self.now a) (type_at self.now b) }
        ensures promoted { IfOk result rule.IsPromotedForm }
    {
        if self.is_integer(a) && self.is_integer(b) {
            Ok(BinaryForm::Shift(promoted(self.ty(a))))
        } else if self.is_other(a) || self.is_other(b) {
            Err(1)
        } else {
            Err(14)
        }
    }

    /// `+ -` with a pointer on the left, if there is one (C11 6.5.6p2, p3).
    fn step_form(&self, a: TypeRef, b: TypeRef) -> Result<BinaryForm, u8>
        ensures exact { result ≡ rule.step_form (type_at self.now a) (type_at self.now b) }
        ensures promoted { IfOk result rule.IsPromotedForm }
    {
        if self.is_integer(a) && self.is_integer(b) {
            Ok(BinaryForm::Integers(usual(self.ty(a), self.ty(b))))
        } else if self.is_complete_pointer(a) && self.is_integer(b) {
            Ok(BinaryForm::PointerAndInteger)
        } else {
            Err(self.refused(2, a, b))
        }
    }

    /// `+` (C11 6.5.6p2).
    fn sum_form(&self, a: TypeRef, b: TypeRef) -> Result<BinaryForm, u8>
        ensures exact { result ≡ rule.sum_form (type_at self.now a) (type_at self.now b) }
        ensures promoted { IfOk result rule.IsPromotedForm }
    {
        if self.is_integer(a) && self.is_complete_pointer(b) {
            Ok(BinaryForm::IntegerAndPointer)
        } else {
            self.step_form(a, b)
        }
    }

    /// Whether two types are pointers to one type, whatever qualifiers it has there.
    pub fn point_to_one(&self, a: TypeRef, b: TypeRef) -> bool
        ensures { result ≡ one_target (type_at self.now a) (type_at self.now b) }
    {
        self.is_pointer(a)
            && self.is_pointer(b)
            && self.is_one(self.target(a).target, self.target(b).target)
    }

    /// `-` (C11 6.5.6p3).
    fn difference_form(&self, a: TypeRef, b: TypeRef) -> Result<BinaryForm, u8>
        ensures exact { result ≡ rule.difference_form (type_at self.now a) (type_at self.now b) }
        ensures promoted { IfOk result rule.IsPromotedForm }
    {
        if self.is_complete_pointer(a) && self.is_complete_pointer(b) && self.point_to_one(a, b) {
            Ok(BinaryForm::Pointers)
        } else {
            self.step_form(a, b)
        }
    }

    /// `< > <= >=` (C11 6.5.8p2).
    fn relation_form(&self, a: TypeRef, b: TypeRef) -> Result<BinaryForm, u8>
        ensures exact { result ≡ rule.relation_form (type_at self.now a) (type_at self.now b) }
        ensures promoted { IfOk result rule.IsPromotedForm }
    {
        if self.is_integer(a) && self.is_integer(b) {
            Ok(BinaryForm::Integers(usual(self.ty(a), self.ty(b))))
        } else if self.is_object_pointer(a) && self.point_to_one(a, b) {
            Ok(BinaryForm::Pointers)
        } else {
            Err(self.refused(3, a, b))
        }
    }

    /// A pointer and a null pointer constant (C11 6.5.9p2).
    fn null_form(&self, a: OperandRef, b: OperandRef) -> Result<BinaryForm, u8>
        ensures exact { result ≡ rule.null_form (operand_at self.now a) (operand_at self.now b) }
        ensures promoted { IfOk result rule.IsPromotedForm }
    {
        if self.is_pointer(a.of) && b.is_null {
            Ok(BinaryForm::PointerAndNull)
        } else if a.is_null && self.is_pointer(b.of) {
            Ok(BinaryForm::NullAndPointer)
        } else {
            Err(self.refused(4, a.of, b.of))
        }
    }

    /// `== !=` (C11 6.5.9p2).
    fn equality_form(&self, a: OperandRef, b: OperandRef) -> Result<BinaryForm, u8>
        ensures exact { result ≡ rule.equality_form (operand_at self.now a) (operand_at self.now b) }
        ensures promoted { IfOk result rule.IsPromotedForm }
    {
        if self.is_integer(a.of) && self.is_integer(b.of) {
            Ok(BinaryForm::Integers(usual(self.ty(a.of), self.ty(b.of))))
        } else if self.point_to_one(a.of, b.of) {
            Ok(BinaryForm::Pointers)
        } else {
            self.null_form(a, b)
        }
    }

    /// What an operator between two operands computes on, or the number of the rule that is broken.
    pub fn binary_form(&self, op: Op, a: OperandRef, b: OperandRef) -> Result<BinaryForm, u8>
        ensures exact { result ≡ rule.binary_form op (operand_at self.now a) (operand_at self.now b) }
        ensures promoted { IfOk result rule.IsPromotedForm }
    {
        match op {
            Op::Add => self.sum_form(a.of, b.of),
            Op::Sub => self.difference_form(a.of, b.of),
            Op::Mul | Op::Div | Op::Rem => self.arithmetic_form(a.of, b.of),
            Op::Shl | Op::Shr => self.shift_form(a.of, b.of),
            Op::And | Op::Or | Op::Xor => self.arithmetic_form(a.of, b.of),
            Op::Lt | Op::Gt | Op::Le | Op::Ge => self.relation_form(a.of, b.of),
            Op::Eq | Op::Ne => self.equality_form(a, b),
        }
    }

    /// What the operator of a compound assignment computes on (C11 6.5.16.2), or the number of the rule that is broken.
    fn compound_form(&self, op: Op, a: TypeRef, b: TypeRef) -> Result<BinaryForm, u8>
        ensures exact { result ≡ rule.compound_form op (type_at self.now a) (type_at self.now b) }
        ensures promoted { IfOk result rule.IsPromotedForm }
    {
        match op {
            Op::Add | Op::Sub => self.step_form(a, b),
            Op::Mul | Op::Div | Op::Rem => self.arithmetic_form(a, b),
            Op::Shl | Op::Shr => self.shift_form(a, b),
            Op::And | Op::Or | Op::Xor => self.arithmetic_form(a, b),
            Op::Lt | Op::Gt | Op::Le | Op::Ge | Op::Eq | Op::Ne => Err(1),
        }
    }

    /// The same, where the left operand has to be a modifiable lvalue.
    pub fn update_form(
        &self,
        op: Op,
        may_change: bool,
        a: TypeRef,
        b: TypeRef,
    ) -> Result<BinaryForm, u8>
        ensures exact { result ≡ rule.update_form op may_change (type_at self.now a) (type_at self.now b) }
        ensures promoted { IfOk result rule.IsPromotedForm }
    {
        beside(may_change, 7, self.compound_form(op, a, b))
    }
}

/// The least of a rule and of what another one answers.
pub(crate) fn beside<T: Copy>(holds: bool, number: u8, other: Result<T, u8>) -> Result<T, u8>
    ensures { result ≡ rule.beside holds number other }
{
    match other {
        Ok(form) => { if holds { Ok(form) } else { Err(number) } }
        Err(least) => {
            if holds || least <= number {
                Err(least)
            } else {
                Err(number)
            }
        }
    }
}
