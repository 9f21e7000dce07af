use c_known::File;
use c_types::TypeRef;

/// Where a statement stands.
#[derive(Clone, Copy)]
pub(crate) struct Within {
    pub(crate) file: File,
    /// The result type of the function.
    pub(crate) returns: TypeRef,
    pub(crate) in_loop: bool,
}
