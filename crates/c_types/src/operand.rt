use crate::type_ref::TypeRef;

/// The type of an operand's value after decay, and whether it is a null pointer constant (C11 6.3.2.3p3).
#[derive(Clone, Copy, Debug, PartialEq, Eq)]
pub struct OperandRef {
    pub of: TypeRef,
    pub is_null: bool,
}
