ghost use Rattle.std.specs.Prelude.{◌≡◌, IfOk, IfErr, MatchResult};
ghost use Rattle.c_types.specs.Rules as rule;
ghost use Rattle.c_types.specs.Table.{type_at, qualified_at, Stands, StandsFor, IndirectionIs, CalleeIs, CastIs};

use crate::form::BinaryForm;
use crate::integer::promoted;
use crate::table::Types;
use crate::type_ref::{QualifiedRef, TypeRef};
use srmt_base::Ty;

impl Types {
    /// `+ - ~` before an operand: the promoted type (C11 6.5.3.3p1).
    pub fn unary_type(&self, of: TypeRef) -> Result<Ty, u8>
        ensures { result ≡ rule.unary_type (type_at self.now of) }
    {
        if self.is_integer(of) {
            Ok(promoted(self.ty(of)))
        } else {
            Err(self.refused(1, of, of))
        }
    }

    /// An index (C11 6.5.2.1p1): one pointer to a complete object type and one integer.
    pub fn index_form(&self, a: TypeRef, b: TypeRef) -> Result<BinaryForm, u8>
        ensures { result ≡ rule.index_form (type_at self.now a) (type_at self.now b) }
    {
        if self.is_complete_pointer(a) && self.is_integer(b) {
            Ok(BinaryForm::PointerAndInteger)
        } else if self.is_integer(a) && self.is_complete_pointer(b) {
            Ok(BinaryForm::IntegerAndPointer)
        } else {
            Err(self.refused(9, a, b))
        }
    }

    /// `*` (C11 6.5.3.2p2): what the operand points to.
    pub fn indirection_type(&self, of: TypeRef) -> Result<QualifiedRef, u8>
        ensures { IndirectionIs self.now result (rule.indirection_type (type_at self.now of)) }
    {
        if self.is_pointer(of) {
            Ok(self.target(of))
        } else {
            Err(self.refused(9, of, of))
        }
    }

    /// What is called, after decay (C11 6.5.2.2p1): the function's type.
    pub fn callee_type(&self, of: TypeRef) -> Result<TypeRef, u8>
        ensures { CalleeIs self.now result (rule.callee_type (type_at self.now of)) }
    {
        if self.is_function_pointer(of) {
            Ok(self.target(of).target)
        } else {
            Err(self.refused(10, of, of))
        }
    }

    /// Whether a cast to a type is allowed (C11 6.5.4p2), or the number of the rule that is broken.
    pub fn cast_rule(&self, target: TypeRef, from: TypeRef) -> Result<(), u8>
        ensures { CastIs result (rule.cast_type (type_at self.now target) (type_at self.now from)) }
    {
        if self.is_void(target) {
            Ok(())
        } else if self.is_integer(target) && self.is_integer(from) {
            Ok(())
        } else if self.is_integer(target) {
            Err(self.refused(12, from, from))
        } else {
            Err(12)
        }
    }
}
