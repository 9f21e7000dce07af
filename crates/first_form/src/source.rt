ghost use Rattle.std.specs.Prelude.{◌≡◌};
ghost use Rattle.first_form.specs.declared.source.FormRefusal.TheVariants.{Memory};

use sqlite_items::Items;
use std::alloc::AllocError;

/// A decimal constant of type `int` (C11 6.4.4.1) with its place.
#[derive(Clone, Copy, Debug, PartialEq, Eq)]
pub struct Constant {
    /// 0 to 2,147,483,647.
    pub value: u32,
    /// The line of its first digit, from 1.
    pub line: u32,
}

/// A statement `putchar(D);` (C11 7.21.7.8).
#[derive(Clone, Copy, Debug, PartialEq, Eq)]
pub struct PutConstant {
    /// The line of the name `putchar`.
    pub name_line: u32,
    /// The line of its `(`.
    pub paren_line: u32,
    /// What it writes, modulo 256.
    pub constant: Constant,
}

/// A source of the first form: `main` writes constants and returns one.
#[derive(Debug, Drop)]
pub struct FirstForm {
    /// The line of the name `main`.
    pub main_line: u32,
    /// Its statements `putchar(D);` in order, at most 20,000.
    pub puts: Items<PutConstant>,
    /// The line of the word `return`.
    pub return_line: u32,
    /// What it returns.
    pub status: Constant,
    /// The line of its `}`.
    pub end_line: u32,
}

/// Why a source was not read.
#[derive(Clone, Copy, Debug, PartialEq, Eq)]
pub enum FormRefusal {
    /// It is not of the first form.
    Form,
    /// Memory ran out.
    Memory,
}

impl From<AllocError> for FormRefusal {
    ghost from_gives = { λ _ e. e ≡ Memory };

    fn from(_e: AllocError) -> FormRefusal {
        FormRefusal::Memory
    }
}
