use crate::mid::Mid;
use sqlite_items::Items;
use srmt_base::Static;

/// What a register holds for its whole function.
#[derive(Clone, Copy, Debug, PartialEq, Eq)]
pub enum RegisterKind {
    /// A number: the value of an integer type, or the number of a function.
    Number,
    /// A pointer to an object.
    Address,
}

/// The type of a function, as far as calls depend on it.
#[derive(Debug, Drop)]
pub struct FunType {
    /// The kinds of the parameters in order, at most 16.
    pub params: Items<RegisterKind>,
    /// The kind of the result. That of a function without a result is `Number`.
    pub result: RegisterKind,
}

/// An instruction with the line of the source that it comes from.
#[derive(Clone, Copy, Debug, PartialEq, Eq)]
pub struct MidLine {
    /// Line n of the main file is n, line n of the binary file 2,000,000 + n.
    pub line: u32,
    pub mid: Mid,
}

/// A function in middle code.
#[derive(Debug, Drop)]
pub struct MidFunction {
    /// The place of its type in the program's types.
    pub ty: u16,
    /// The kinds of its registers, 1 to 1,024, the parameters first.
    pub kinds: Items<RegisterKind>,
    /// The line of its name in its definition.
    pub line: u32,
    /// Its instructions, 1 to 65,535. It is entered at the first.
    pub code: Items<MidLine>,
}

/// A whole program: the functions of the main file, and those of the binary file.
#[derive(Debug, Drop)]
pub struct MidProgram {
    pub types: Items<FunType>,
    /// How many of the functions are those of the main file.
    pub main_functions: u16,
    /// The number of `main`, from 1.
    pub main: u16,
    /// The static objects of the main file, numbered from 1.
    pub main_statics: Items<Static>,
    /// The static objects of the binary file.
    pub binary_statics: Items<Static>,
    /// All functions by number, the first of which is 1: those of the main file come first.
    pub functions: Items<MidFunction>,
}

impl MidProgram {
    ghost use Rattle.std.specs.Prelude.{◌≡◌};
    ghost use Rattle.std.specs.Option.{option_copied};
    ghost use Rattle.mid_code.specs.Program.{function_at, line_at};

    /// The function of a number, the first of which is 1, or `None` where there is none.
    pub fn function(&self, number: u16) -> Option<&MidFunction>
        ensures { option_copied result ≡ function_at self.now number }
    {
        if number == 0 {
            return None;
        }
        self.functions.get(usize::from(number) - 1)
    }

    /// The instruction at a place of a function, from 0, or `None` past its code.
    pub fn line(&self, function: u16, place: usize) -> Option<MidLine>
        ensures { result ≡ line_at self.now function place }
    {
        let function = self.function(function)?;
        function.code.get(place).copied()
    }
}
