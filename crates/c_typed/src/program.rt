use crate::statement::Block;
use c_types::{QualifiedRef, TypeRef, Types};
use sqlite_items::Items;

/// A local of a function.
#[derive(Clone, Copy, Debug, PartialEq, Eq)]
pub struct LocalRow {
    /// The line of its name, or of its first token where it has none.
    pub line: u32,
    /// The line of its declarator's first token.
    pub first: u32,
    pub ty: QualifiedRef,
    /// Whether it stands in memory: it is an array or volatile, or `&` is applied to it. Any other is in a register.
    pub is_placed: bool,
}

/// A definition of a function (C11 6.9.1).
#[derive(Drop)]
pub struct Function {
    /// The number of its entity.
    pub entity: u32,
    /// The line of its name.
    pub line: u32,
    pub ty: TypeRef,
    /// How many of its locals are parameters, which stand first.
    pub parameters: u32,
    pub locals: Items<LocalRow>,
    pub body: Block,
}

/// What a cell of a static object starts with (C11 6.6p9, 6.7.9p4).
#[derive(Clone, Copy, Debug, PartialEq, Eq)]
pub enum Start {
    /// A number modulo 2^32.
    Number(u32),
    /// A cell of an object, by its entity and offset.
    Object(u32, u32),
    /// A cell of a text of the same file, by its number and offset.
    Text(u32, u32),
    /// A function, by its entity.
    Function(u32),
}

/// A cell with what it starts with.
#[derive(Clone, Copy, Debug, PartialEq, Eq)]
pub struct StartCell {
    pub index: u32,
    pub start: Start,
}

/// A static object.
#[derive(Drop)]
pub struct Static {
    /// The number of its entity.
    pub entity: u32,
    /// The line of its first declaration's name in its file.
    pub line: u32,
    pub ty: QualifiedRef,
    /// Its given cells; the others start with 0.
    pub cells: Items<StartCell>,
}

/// A string literal that is an object.
#[derive(Drop)]
pub struct TextObject {
    /// The line of its first token.
    pub line: u32,
    /// Its bytes without the final 0.
    pub bytes: Items<u8>,
}

/// A file: its functions in the order of their definitions, its static objects in the order of their first
/// declarations, its texts in the order of their appearance.
#[derive(Drop)]
pub struct TypedFile {
    pub functions: Items<Function>,
    pub statics: Items<Static>,
    pub texts: Items<TextObject>,
}

/// What an entity is in the end.
#[derive(Clone, Copy, Debug, PartialEq, Eq)]
pub enum Numbered {
    /// A function by its number, from 1: those of the main file, then those of the binary file.
    Function(u32),
    /// An object by its number in its part.
    Object(u32),
    /// It is declared, and no file defines it.
    Nowhere,
}

/// A program.
#[derive(Drop)]
pub struct TypedProgram {
    pub types: Types,
    pub main_file: TypedFile,
    pub binary_file: TypedFile,
    /// What each entity is, by its number.
    pub entities: Items<Numbered>,
    /// The entity of `main`.
    pub main: u32,
}
