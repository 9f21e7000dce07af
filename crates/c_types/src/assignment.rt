ghost use Rattle.std.specs.Prelude.{◌≡◌};
ghost use Rattle.c_types.specs.Rules as rule;
ghost use Rattle.c_types.specs.Table.{type_at, qualified_at, operand_at};

use crate::form::{BinaryForm, ChoiceForm, Conversion};
use crate::integer::usual;
use crate::operand::OperandRef;
use crate::qualifiers::Qualifiers;
use crate::rules::beside;
use crate::table::Types;
use crate::type_ref::{QualifiedRef, TypeRef};
use srmt_base::{Op, Ty};

impl Types {
    /// Whether an lvalue of a type may be modified (C11 6.3.2.1p1).
    pub fn is_modifiable(&self, place: QualifiedRef) -> bool
        ensures { result ≡ rule.is_modifiable (qualified_at self.now place) }
    {
        self.is_scalar(place.target) && !place.qualifiers.is_const
    }

    /// A conversion as by assignment to an integer type (C11 6.5.16.1p1).
    fn integer_conversion(&self, target: TypeRef, from: OperandRef) -> Result<Conversion, u8>
        ensures { result ≡ rule.integer_conversion (type_at self.now target) (operand_at self.now from) }
    {
        if self.is_integer(from.of) {
            Ok(Conversion::Integer(self.ty(from.of), self.ty(target)))
        } else if self.is_pointer(from.of) && self.ty(target).code() == Ty::Bool.code() {
            Ok(Conversion::PointerToBool)
        } else {
            Err(self.refused(8, from.of, from.of))
        }
    }

    /// A conversion as by assignment to a pointer (C11 6.5.16.1p1).
    fn pointer_conversion(&self, target: TypeRef, from: OperandRef) -> Result<Conversion, u8>
        ensures { result ≡ rule.pointer_conversion (type_at self.now target) (operand_at self.now from) }
    {
        if from.is_null {
            Ok(Conversion::Null)
        } else if self.point_to_one(from.of, target) && self.loses_no_qualifier(from.of, target) {
            Ok(Conversion::Pointer)
        } else {
            Err(self.refused(8, from.of, from.of))
        }
    }

    /// Whether what a pointer points to has each qualifier of what another one points to.
    fn loses_no_qualifier(&self, from: TypeRef, target: TypeRef) -> bool
        ensures { result ≡ rule.loses_none (type_at self.now from) (type_at self.now target) }
    {
        let old = self.target(from).qualifiers;
        let new = self.target(target).qualifiers;
        (!old.is_const || new.is_const) && (!old.is_volatile || new.is_volatile)
    }

    /// A conversion as by assignment (C11 6.5.16.1p1), or the number of the rule that is broken.
    pub fn conversion_form(&self, target: TypeRef, from: OperandRef) -> Result<Conversion, u8>
        ensures { result ≡ rule.conversion_form (type_at self.now target) (operand_at self.now from) }
    {
        if self.is_integer(target) {
            self.integer_conversion(target, from)
        } else if self.is_pointer(target) {
            self.pointer_conversion(target, from)
        } else {
            Err(self.refused(8, from.of, from.of))
        }
    }

    /// The same, where the left operand of the assignment has to be a modifiable lvalue.
    pub fn assignment_form(
        &self,
        may_change: bool,
        target: TypeRef,
        from: OperandRef,
    ) -> Result<Conversion, u8>
        ensures { result ≡ rule.assignment_form may_change (type_at self.now target) (operand_at self.now from) }
    {
        beside(may_change, 7, self.conversion_form(target, from))
    }

    /// A pointer and a null pointer constant as branches (C11 6.5.15p3).
    fn null_choice(&self, a: OperandRef, b: OperandRef) -> Result<ChoiceForm, u8>
        ensures { result ≡ rule.null_choice (operand_at self.now a) (operand_at self.now b) }
    {
        if self.is_pointer(a.of) && b.is_null {
            Ok(ChoiceForm::PointerAndNull)
        } else if a.is_null && self.is_pointer(b.of) {
            Ok(ChoiceForm::NullAndPointer)
        } else {
            Err(6)
        }
    }

    /// What the branches of a conditional operator are (C11 6.5.15p3).
    fn branches_form(&self, a: OperandRef, b: OperandRef) -> Result<ChoiceForm, u8>
        ensures { result ≡ rule.branches_form (operand_at self.now a) (operand_at self.now b) }
    {
        if self.is_integer(a.of) && self.is_integer(b.of) {
            Ok(ChoiceForm::Integers(usual(self.ty(a.of), self.ty(b.of))))
        } else if self.is_void(a.of) && self.is_void(b.of) {
            Ok(ChoiceForm::Voids)
        } else if self.point_to_one(a.of, b.of) {
            Ok(ChoiceForm::Pointers)
        } else {
            self.null_choice(a, b)
        }
    }

    /// The same with the condition, or the number of the rule that is broken.
    pub fn choice_form(&self, test: TypeRef, a: OperandRef, b: OperandRef) -> Result<ChoiceForm, u8>
        ensures { result ≡ rule.choice_form (type_at self.now test) (operand_at self.now a) (operand_at self.now b) }
    {
        beside(self.is_scalar(test), 5, self.branches_form(a, b))
    }
}
