//! The types of the accepted subset of C (C11 6.2.5), the conversions between them (C11 6.3), and the rules on types of
//! its operators (C11 6.5).
#![tactic(auto)]

mod assignment;
mod declarations;
mod form;
mod integer;
mod kinds;
mod operand;
mod parts;
mod places;
mod qualifiers;
mod rules;
mod size;
mod table;
mod type_ref;

pub use declarations::same_qualifiers;
pub use form::{BinaryForm, ChoiceForm, Conversion};
pub use integer::{integer_bytes, integer_cells, promoted, usual};
pub use operand::OperandRef;
pub use qualifiers::Qualifiers;
pub use size::Size;
pub use table::Types;
pub use type_ref::{QualifiedRef, Shape, TypeRef};

#[cfg(test)]
mod tests;
