ghost use Rattle.std.specs.Prelude.{◌≡◌, ℕ, ◌≤◌, MatchOption};
ghost use Rattle.srmt_base.specs.Memory.{first_number as first_of};
ghost use Rattle.mid_code.specs.Fits.{IsValue};
ghost use Rattle.c_types.specs.Types.{ty_of, cells_of, target_of};
ghost use Rattle.c_types.specs.Table.{type_at};
ghost use Rattle.c_typed.specs.StatementViews.{row_view, file_view, program_view};
ghost use Rattle.source_meaning.specs.Places.{row_of, value_of_entity as entity_of, address_of_text as text_of, file_of as meaning_of_file};
ghost use Rattle.source_meaning.specs.Sound.{CanRun, HasCells};
ghost use Rattle.c_meaning.specs.Runs.{setting_of};

use crate::task::Current;
use c_typed::{LocalRow, Numbered, TypedFile, TypedProgram};
use c_types::{QualifiedRef, Qualifiers, TypeRef, Types};
use srmt_base::{Part, Ty};

/// Where a run stands: in a function of a program.
#[derive(Clone, Copy)]
pub(crate) struct At<'p> {
    pub(crate) program: &'p TypedProgram,
    pub(crate) current: Current<'p>,
}

/// The row of a local that is not there.
const NO_ROW: LocalRow = LocalRow {
    line: 0,
    first: 0,
    ty: QualifiedRef {
        qualifiers: Qualifiers {
            is_const: false,
            is_volatile: false,
        },
        target: TypeRef::Void,
    },
    is_placed: false,
};

/// What an entity is: the number of a function, or the address of an object.
pub(crate) fn value_of_entity(program: &TypedProgram, entity: u32) -> u64
    requires { CanRun (program_view program.now) }
    ensures value { result ≡ entity_of (program_view program.now) entity }
    ensures small { IsValue result }
{
    match program.entities.as_slice().get(entity as usize) {
        None => 0,
        Some(Numbered::Nowhere) => 0,
        Some(Numbered::Function(number)) => u64::from(*number),
        Some(Numbered::Object(number)) => u64::from(*number) * 65536,
    }
}

/// The file of a part.
pub(crate) fn file_of(program: &TypedProgram, part: Part) -> &TypedFile
    ensures { file_view (type_at program.now.types) result.now ≡ meaning_of_file part (program_view program.now) }
{
    match part {
        Part::Protected => &program.main_file,
        Part::Binary => &program.binary_file,
    }
}

/// The number of the first object of a part.
fn first_number(part: Part) -> u64
    ensures { result ≡ first_of part }
{
    match part {
        Part::Protected => 1,
        Part::Binary => 134_217_728,
    }
}

/// The address of a text, by its number in its file.
pub(crate) fn address_of_text(program: &TypedProgram, part: Part, number: u32) -> u64
    requires { IsValue (text_of part (program_view program.now) number) }
    ensures value { result ≡ text_of part (program_view program.now) number }
    ensures small { IsValue result }
{
    let statics = file_of(program, part).statics.len() as u64;
    (first_number(part) + statics + u64::from(number)) * 65536
}

/// How many cells an object of a type takes.
pub(crate) fn cells(types: &Types, of: TypeRef) -> u16
    requires { HasCells (type_at types.now of) }
    ensures cells { result ≡ cells_of (type_at types.now of) }
    ensures some { 1 ≤ result }
{
    types.size(of).cells as u16
}

impl<'p> At<'p> {
    /// The row of a local of the function that runs.
    pub(crate) fn row(self, number: usize) -> LocalRow
        ensures { (bound : ℕ) → row_view (type_at self.entry.program.now.types) result ≡ row_of (setting_of bound self.entry) number }
    {
        let rows = self.current.function.locals.as_slice();
        rows.get(number).copied().unwrap_or(NO_ROW)
    }

    /// The type at which arithmetic on a value is made.
    pub(crate) fn ty(self, of: TypeRef) -> Ty
        ensures { result ≡ ty_of (type_at self.entry.program.now.types of) }
    {
        self.program.types.ty(of)
    }

    /// How many cells what a pointer points to takes.
    pub(crate) fn scale(self, of: TypeRef) -> u16
        requires { HasCells (target_of (type_at self.program.now.types of)).type }
        ensures scale { result ≡ cells_of (target_of (type_at self.entry.program.now.types of)).type }
        ensures some { 1 ≤ result }
    {
        let types = &self.program.types;
        cells(types, types.target(of).target)
    }
}
