ghost use Rattle.std.specs.Prelude.{◌≡◌};
ghost use Rattle.c_types.specs.declared.type_ref.TypeRef.{TypeRef as TypeRef'};
ghost use Rattle.c_types.specs.Types.{CType};
ghost use Rattle.typing_rules.specs.Known as known;
ghost use Rattle.typing_rules.specs.DeclarationRules as rule;
ghost use Rattle.c_entities.specs.Views.{entity_view, file_view, defining_view, definition_view, is_tentative as is_tentative_way};

use c_typed::StartCell;
use c_types::QualifiedRef;

/// A file of a program.
#[derive(Clone, Copy, Debug, PartialEq, Eq)]
pub enum File {
    Main,
    Binary,
}

/// A word for the storage of what is declared, if there is one (C11 6.7.1).
#[derive(Clone, Copy, Debug, PartialEq, Eq)]
pub enum Storage {
    None,
    Static,
    Extern,
}

/// Whether an object or function is defined, and in which file (C11 6.9p3, p5).
#[derive(Clone, Copy, Debug, PartialEq, Eq)]
pub enum Definition {
    Undefined,
    /// An object without an initializer (C11 6.9.2p2).
    Tentative(File),
    Defined(File),
}

/// A declaration that defines: an object without initializer only tentatively (C11 6.9.2p1, p2).
#[derive(Clone, Copy, Debug, PartialEq, Eq)]
pub enum Defining {
    Tentatively,
    Fully,
}

/// An object or function with linkage.
#[derive(Drop)]
pub struct Entity {
    pub name: Vec<u8>,
    /// By all declarations so far.
    pub ty: QualifiedRef,
    pub is_external: bool,
    /// The file that declared it first.
    pub file: File,
    pub definition: Definition,
    /// What the given cells of an object start with.
    pub contents: Vec<StartCell>,
}

/// What a name of file scope means: an entity, with the type that the declarations of this file give it.
#[derive(Clone, Copy, Debug, PartialEq, Eq)]
pub struct Linked {
    pub entity: u32,
    pub ty: QualifiedRef,
}

impl Entity {
    /// Whether it is the function that the program begins with: `main`, but not a static one of the binary file.
    pub(crate) fn is_main(&self) -> bool
        ensures { (types : TypeRef' → CType) → result ≡ known.is_main (entity_view types self.now) }
    {
        self.name.as_slice() == b"main".as_slice() && (self.is_external || self.file.is(File::Main))
    }
}

impl File {
    /// Whether it is a file.
    pub fn is(self, other: File) -> bool
        ensures { result ≡ known.same_file (file_view self) (file_view other) }
    {
        match self {
            File::Main => matches_main(other),
            File::Binary => !matches_main(other),
        }
    }
}

/// Whether a file is the main file.
fn matches_main(file: File) -> bool
    ensures { result ≡ known.same_file known.main_file (file_view file) }
{
    match file {
        File::Main => true,
        File::Binary => false,
    }
}

impl Definition {
    /// Whether a declaration in a file may define what is defined so: in one file, and there once; tentative
    /// definitions count as one.
    pub fn allows(self, how: Defining, file: File) -> bool
        ensures { result ≡ rule.may_define (defining_view how) (definition_view self) (file_view file) }
    {
        match self {
            Definition::Undefined => true,
            Definition::Tentative(other) => other.is(file),
            Definition::Defined(other) => how.is_tentative() && other.is(file),
        }
    }

    /// Whether it is none.
    pub fn is_undefined(self) -> bool
        ensures { result ≡ rule.is_undefined (definition_view self) }
    {
        match self {
            Definition::Undefined => true,
            Definition::Tentative(_) | Definition::Defined(_) => false,
        }
    }

    /// What it is after a declaration in a file that defines.
    pub(crate) fn defined_by(self, how: Defining, file: File) -> Definition
        ensures { definition_view result ≡ rule.defined_by (defining_view how) (definition_view self) (file_view file) }
    {
        match how {
            Defining::Fully => Definition::Defined(file),
            Defining::Tentatively => match self {
                Definition::Undefined => Definition::Tentative(file),
                Definition::Tentative(_) | Definition::Defined(_) => self,
            },
        }
    }
}

impl Defining {
    /// Whether an object is only tentatively defined.
    fn is_tentative(self) -> bool
        ensures { result ≡ is_tentative_way (defining_view self) }
    {
        match self {
            Defining::Tentatively => true,
            Defining::Fully => false,
        }
    }
}
