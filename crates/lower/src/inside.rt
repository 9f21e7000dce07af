ghost use Rattle.std.specs.Prelude.{◌≡◌, ◌==◌, suc, IfOk, IfErr};
ghost use Rattle.c_types.specs.Types.{ty_of, is_object_pointer};
ghost use Rattle.c_types.specs.Table.{type_at};
ghost use Rattle.c_typed.specs.StatementViews.{row_view, program_view};
ghost use Rattle.c_typed.specs.Views.{place_view};
ghost use Rattle.lower.specs.Emitting.{kind_of as kind_of_type};
ghost use Rattle.lower.specs.Expressions.{row_at, number_of as number_of_entity, where_is as where_place_is};
ghost use Rattle.srmt_base.specs.Memory.{first_number as first_of};
ghost use Rattle.c_types.specs.Types.{is_function_pointer, cells_of};
ghost use Rattle.lower.specs.Expressions.{text_number};
ghost use Rattle.c_typed.specs.declared.program.TypedProgram.{TypedProgram as CodeProgram};
ghost use Rattle.source_meaning.specs.Places.{file_of as file_of_part};
ghost use Rattle.source_meaning.specs.Expressions.{scale_of};
ghost use Rattle.c_typed.specs.StatementViews.{file_view};
ghost use Rattle.lower.specs.Emitting.{free_behind as free_behind_value};
ghost use Rattle.lower.specs.Expressions.{compared_at as compared_at_type};
ghost use Rattle.lower.specs.Emits.{types_of, inside_view, where_view};
ghost use Rattle.lower.specs.declared.refusal.LowerRefusal.TheVariants.{Memory};

use crate::refusal::LowerRefusal;
use c_typed::{Function, LocalRow, Numbered, Place, PlaceNode, TypedFile, TypedProgram};
use c_types::{QualifiedRef, Qualifiers, TypeRef, Types};
use mid_code::RegisterKind;
use srmt_base::{Part, Ty};

/// What is fixed while a function is lowered.
#[derive(Clone, Copy)]
pub(crate) struct Inside<'p> {
    pub(crate) program: &'p TypedProgram,
    pub(crate) part: Part,
    pub(crate) function: &'p Function,
}

/// Where a place is.
#[derive(Clone, Copy)]
pub(crate) enum Where {
    /// A local in a register, by its number.
    Register(usize),
    /// Memory, through an lvalue that may be volatile, at a line.
    Memory(bool, u32),
}

/// The most registers of a function.
pub(crate) const MOST_REGISTERS: usize = 1024;

/// The temporary behind one.
pub(crate) fn behind(k: usize) -> Result<usize, LowerRefusal>
    ensures next { IfOk result (λ n. n ≡ suc k) }
    ensures memory { IfErr result (λ e. e ≡ Memory) }
{
    if k == usize::MAX {
        return Err(LowerRefusal::Memory);
    }
    Ok(k + 1)
}

/// A number as middle code holds it: no program has a larger one.
pub(crate) fn short(number: u32) -> Result<u16, LowerRefusal>
    ensures same { IfOk result (λ n. n ≡ number) }
    ensures memory { IfErr result (λ e. e ≡ Memory) }
{
    if number > 65_535 {
        return Err(LowerRefusal::Memory);
    }
    Ok(number as u16)
}

/// The row of a local that is not there.
const NO_ROW: LocalRow = LocalRow {
    line: 0,
    first: 0,
    ty: QualifiedRef {
        qualifiers: Qualifiers {
            is_const: false,
            is_volatile: false,
        },
        target: TypeRef::Void,
    },
    is_placed: false,
};

/// The number of a function, or of an object with linkage.
pub(crate) fn number_of(program: &TypedProgram, entity: u32) -> u32
    ensures { result ≡ number_of_entity (program_view program.now) entity }
{
    match program.entities.as_slice().get(entity as usize) {
        None => 0,
        Some(Numbered::Nowhere) => 0,
        Some(Numbered::Function(number)) => *number,
        Some(Numbered::Object(number)) => *number,
    }
}

/// The file of a part.
pub(crate) fn file_of(program: &TypedProgram, part: Part) -> &TypedFile
    ensures { file_view (type_at program.now.types) result.now ≡ file_of_part part (program_view program.now) }
{
    match part {
        Part::Protected => &program.main_file,
        Part::Binary => &program.binary_file,
    }
}

/// The number of the first object of a part.
fn first_number(part: Part) -> u32
    ensures { result ≡ first_of part }
{
    match part {
        Part::Protected => 1,
        Part::Binary => 134_217_728,
    }
}

/// The number of a text, by its number in its file.
pub(crate) fn number_of_text(
    program: &TypedProgram,
    part: Part,
    text: u32,
) -> Result<u32, LowerRefusal>
    ensures same { IfOk result (λ n. n ≡ text_number (program_view program.now) part text) }
    ensures memory { IfErr result (λ e. e ≡ Memory) }
{
    let statics = file_of(program, part).statics.len();
    if statics > u32::MAX as usize {
        return Err(LowerRefusal::Memory);
    }
    let number = u64::from(first_number(part)) + statics as u64 + u64::from(text);
    if number > u64::from(u32::MAX) {
        return Err(LowerRefusal::Memory);
    }
    Ok(number as u32)
}

/// How many cells an object of a type takes.
pub(crate) fn cells(types: &Types, of: TypeRef) -> Result<u16, LowerRefusal>
    ensures same { IfOk result (λ n. n ≡ cells_of (type_at types.now of)) }
    ensures memory { IfErr result (λ e. e ≡ Memory) }
{
    short(types.size(of).cells)
}

/// The kind of a register that holds a value of a type: pointers to objects stand in registers of their own kind.
pub(crate) fn kind_of(types: &Types, of: TypeRef) -> RegisterKind
    ensures { result ≡ kind_of_type (type_at types.now of) }
{
    if types.is_object_pointer(of) {
        RegisterKind::Address
    } else {
        RegisterKind::Number
    }
}

impl<'p> Inside<'p> {
    pub(crate) fn types(self) -> &'p Types
        ensures { result.now ≡ self.entry.program.now.types }
    {
        &self.program.types
    }

    /// Whether the function is `main`.
    pub(crate) fn is_main(self) -> bool
        ensures { result ≡ (inside_view self.entry).is_main }
    {
        self.function.entity == self.program.main
    }

    /// The row of a local of the function.
    pub(crate) fn row(self, number: usize) -> LocalRow
        ensures { row_view (types_of self.entry) result ≡ row_at (inside_view self.entry).rows number }
    {
        let rows = self.function.locals.as_slice();
        rows.get(number).copied().unwrap_or(NO_ROW)
    }

    /// Where a place is.
    pub(crate) fn where_is(self, place: &Place) -> Where
        ensures { where_view result ≡ where_place_is (inside_view self.entry) (place_view (types_of self.entry) place.now) }
    {
        let is_volatile = place.ty.qualifiers.is_volatile;
        match &place.node {
            PlaceNode::Local(number) => {
                let number = *number as usize;
                if self.row(number).is_placed {
                    Where::Memory(is_volatile, place.line)
                } else {
                    Where::Register(number)
                }
            }
            PlaceNode::Static(_) | PlaceNode::Text(_) | PlaceNode::Pointed(_) => {
                Where::Memory(is_volatile, place.line)
            }
            PlaceNode::Element(at, ..) => Where::Memory(is_volatile, *at),
        }
    }

    /// The type at which arithmetic on a value is made.
    pub(crate) fn ty(self, of: TypeRef) -> Ty
        ensures { result ≡ ty_of (types_of self.entry of) }
    {
        self.types().ty(of)
    }

    /// Whether a value of a type is the pointer to an object.
    pub(crate) fn is_address(self, of: TypeRef) -> bool
        ensures { result ≡ is_object_pointer (types_of self.entry of) }
    {
        self.types().is_object_pointer(of)
    }

    /// The first temporary that is free behind a value of a type.
    pub(crate) fn free_behind(self, of: TypeRef, k: usize) -> Result<usize, LowerRefusal>
        ensures next { IfOk result (λ n. n ≡ free_behind_value (types_of self.entry of) k) }
        ensures memory { IfErr result (λ e. e ≡ Memory) }
    {
        if self.is_address(of) {
            Ok(k)
        } else {
            behind(k)
        }
    }

    /// How many cells what a pointer points to takes.
    pub(crate) fn scale(self, of: TypeRef) -> Result<u16, LowerRefusal>
        ensures same { IfOk result (λ n. n ≡ scale_of (types_of self.entry of)) }
        ensures memory { IfErr result (λ e. e ≡ Memory) }
    {
        cells(self.types(), self.types().target(of).target)
    }

    /// The type at which `!` compares: function pointers are compared as unsigned numbers.
    pub(crate) fn compared_at(self, of: TypeRef) -> Ty
        ensures { result ≡ compared_at_type (types_of self.entry of) }
    {
        if self.types().is_function_pointer(of) {
            Ty::UInt
        } else {
            self.ty(of)
        }
    }

    /// The number of a function.
    pub(crate) fn function_number(self, entity: u32) -> Result<u16, LowerRefusal>
        ensures same { IfOk result (λ n. n ≡ number_of_entity (inside_view self.entry).program entity) }
        ensures memory { IfErr result (λ e. e ≡ Memory) }
    {
        short(number_of(self.program, entity))
    }
}
