use c_entities::Storage;
use c_known::File;
use c_types::QualifiedRef;

/// What is declared at file scope: the file, the line of its name, its storage word and its type.
#[derive(Clone, Copy)]
pub(crate) struct AtFile {
    pub file: File,
    pub line: u32,
    pub storage: Storage,
    pub ty: QualifiedRef,
}
