ghost use Rattle.std.specs.Prelude.{◌≡◌, ℕ, ◌^◌, nat_le, ◌<◌, ◌≤◌, ◌==◌, length, slice_get, sum_by, nat_lt, ◌&&◌, ◌-◌, slice_index};
ghost use Rattle.std.specs.List.{list_any};
ghost use Rattle.mid_code.specs.Rules.{has_large_type, has_bad_parts, is_bad_static, has_bad_statics, breaks_program, is_number_alone, has_bad_type, breaks_function};

use crate::program::{FunType, MidFunction, MidProgram, RegisterKind};
use crate::rules::{VALUES, same_kind};
use srmt_base::Static;

/// The most types of a program, and the most instructions of a function.
const MOST: usize = 65_535;

/// The most functions of a part.
const FUNCTIONS: usize = 4096;

/// The most static cells of a part.
const STATIC_CELLS: u64 = 1_048_576;

/// The most registers of a function, and of its parameters.
const REGISTERS: usize = 1024;

const PARAMETERS: usize = 16;

fn has_many_params(ty: &FunType) -> bool
    ensures { result ≡ nat_lt 16 (length ty.now.params) }
{
    PARAMETERS < ty.params.len()
}

fn has_any_many(types: &[FunType]) -> bool
    ensures { result ≡ list_any (λ type. nat_lt 16 (length type.params)) types.now }
{
    types.iter().any(|ty| has_many_params(ty))
}

fn has_large_type(types: &[FunType]) -> bool
    ensures { result ≡ has_large_type types.now }
{
    MOST < types.len() || has_any_many(types)
}

fn has_bad_parts(program: &MidProgram) -> bool
    ensures { result ≡ has_bad_parts program.now }
{
    let all = program.functions.len();
    let of_main = usize::from(program.main_functions);
    all < of_main
        || FUNCTIONS < of_main
        || FUNCTIONS < all - of_main
        || program.main == 0
        || program.main_functions < program.main
}

fn ends_in_zero(values: &[u64]) -> bool
    ensures { result ≡ (nat_lt 0 (length values.now) && slice_index values.now (length values.now - 1) == 0) }
{
    match values.last() {
        Some(last) => *last == 0,
        None => false,
    }
}

fn has_large_value(values: &[u64]) -> bool
    ensures { result ≡ list_any (λ value. nat_le (2 ^ 44) value) values.now }
{
    values.iter().any(|value| VALUES <= *value)
}

fn is_bad_static(object: &Static) -> bool
    ensures { result ≡ is_bad_static object.now }
{
    let values = object.values.as_slice();
    object.cells == 0
        || usize::from(object.cells) < values.len()
        || has_large_value(values)
        || ends_in_zero(values)
}

fn has_many_cells(objects: &[Static]) -> bool
    ensures { result ≡ nat_lt 1048576 (sum_by (λ object. object.cells) objects.now) }
{
    let mut total: u64 = 0;
    for object in objects {
        total += u64::from(object.cells);
        if STATIC_CELLS < total {
            return true;
        }
    }
    false
}

fn has_any_bad(objects: &[Static]) -> bool
    ensures { result ≡ list_any is_bad_static objects.now }
{
    objects.iter().any(|object| is_bad_static(object))
}

fn has_bad_statics(objects: &[Static]) -> bool
    ensures { result ≡ has_bad_statics objects.now }
{
    has_any_bad(objects) || has_many_cells(objects)
}

/// Whether a number that concerns no function is outside its limit.
pub fn breaks_program(program: &MidProgram) -> bool
    ensures { result ≡ breaks_program program.now }
{
    has_large_type(program.types.as_slice())
        || has_bad_parts(program)
        || has_bad_statics(program.main_statics.as_slice())
        || has_bad_statics(program.binary_statics.as_slice())
}

fn is_number_alone(ty: &FunType) -> bool
    ensures { result ≡ is_number_alone ty.now }
{
    ty.params.len() == 0 && same_kind(ty.result, RegisterKind::Number)
}

fn has_bad_type(program: &MidProgram, is_main: bool, function: &MidFunction) -> bool
    ensures { result ≡ has_bad_type is_main function.now (slice_get program.now.types function.now.ty) }
{
    match program.types.get(usize::from(function.ty)) {
        Some(ty) => { function.kinds.len() < ty.params.len() || (is_main && !is_number_alone(ty)) }
        None => true,
    }
}

/// Whether a number that concerns a function is outside its limit.
pub fn breaks_function(program: &MidProgram, number: u16, function: &MidFunction) -> bool
    ensures { result ≡ breaks_function program.now number function.now }
{
    let registers = function.kinds.len();
    let code = function.code.len();
    registers == 0
        || REGISTERS < registers
        || code == 0
        || MOST < code
        || has_bad_type(program, number == program.main, function)
}
