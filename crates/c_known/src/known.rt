use crate::local::{Local, Meaning, Use};
use c_entities::{Entities, File, Linked};
use c_scopes::Blocks;
use c_typed::TextObject;
use c_types::{TypeRef, Types};
use indexmap::IndexSet;
use std::alloc::Global;

/// What is known at a place of a program.
#[derive(Drop)]
pub struct Known {
    pub alloc: Global,
    pub types: Types,
    pub file: File,
    /// What names mean by the declarations of blocks and of lists of parameters.
    pub blocks: Blocks<Meaning>,
    /// What names mean by the declarations at file scope: one scope.
    pub names: Blocks<Linked>,
    pub entities: Entities,
    /// Those of the function.
    pub locals: Vec<Local>,
    /// Those of the file.
    pub texts: Vec<TextObject>,
    /// Of the file.
    pub static_cells: u32,
    /// Of the file.
    pub functions: u32,
    /// The types of functions that are defined or called through a pointer, in both files.
    pub function_types: IndexSet<TypeRef>,
    pub uses: Vec<Use>,
}
