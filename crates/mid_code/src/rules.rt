ghost use Rattle.std.specs.Prelude.{◌≡◌, ℕ, ◌<◌, ◌≤◌, length, slice_get, Some, option_and_then};
ghost use Rattle.std.specs.List.{list_any};
ghost use Rattle.mid_code.specs.Registers.{registers_list};
ghost use Rattle.mid_code.specs.Fields.{present};
ghost use Rattle.mid_code.specs.Rules.{same_kind, is_of_kind, is_outside, is_static, is_callable, has_arithmetic, is_of_other_kind, has_other_kind, is_turn, is_bad_target, broken, register_rule, value_rule, field_rule, lesser, fields_rule, runs_out, are_of_kinds, starts_with_kinds, misfits_type, misreturns, misfits, misfits_params, type_of};
ghost use Rattle.mid_code.specs.Program.{function_at};

use crate::field::{Field, Wanted};
use crate::mid::Mid;
use crate::program::{MidFunction, MidLine, MidProgram, RegisterKind};
use crate::registers::Registers;
use crate::way::way_of;
use srmt_base::Ty;

/// The first number of an object of the binary file.
const BINARY_OBJECTS: u32 = 134_217_728;

/// The least number that is no value.
pub const VALUES: u64 = 1 << 44;

/// Whether two kinds are the same.
pub fn same_kind(left: RegisterKind, right: RegisterKind) -> bool
    ensures { result ≡ same_kind left right }
{
    match left {
        RegisterKind::Number => match right {
            RegisterKind::Number => true,
            RegisterKind::Address => false,
        },
        RegisterKind::Address => match right {
            RegisterKind::Number => false,
            RegisterKind::Address => true,
        },
    }
}

/// Whether a register is there, and has this kind.
fn is_of_kind(kinds: &[RegisterKind], register: u16, kind: RegisterKind) -> bool
    ensures { result ≡ is_of_kind (slice_get kinds.now register) kind }
{
    match kinds.get(usize::from(register)) {
        Some(found) => same_kind(*found, kind),
        None => false,
    }
}

fn is_outside(kinds: &[RegisterKind], register: u16) -> bool
    ensures { result ≡ is_outside kinds.now register }
{
    kinds.len() <= usize::from(register)
}

fn is_any_outside(kinds: &[RegisterKind], registers: &[u16]) -> bool
    ensures { result ≡ list_any (is_outside kinds.now) registers.now }
{
    registers
        .iter()
        .any(|register| is_outside(kinds, *register))
}

fn is_static(program: &MidProgram, object: u32) -> bool
    ensures { result ≡ is_static program.now object }
{
    let of_main = 1 <= object && object as usize <= program.main_statics.len();
    let of_binary = BINARY_OBJECTS <= object
        && ((object - BINARY_OBJECTS) as usize) < program.binary_statics.len();
    of_main || of_binary
}

fn is_callable(program: &MidProgram, function: u16) -> bool
    ensures { result ≡ is_callable program.now function }
{
    1 <= function && usize::from(function) <= program.functions.len() && function != program.main
}

/// Whether arithmetic is made at a type.
fn has_arithmetic(ty: Ty) -> bool
    ensures { result ≡ has_arithmetic ty }
{
    match ty {
        Ty::Int | Ty::UInt => true,
        Ty::Bool | Ty::Char | Ty::SChar | Ty::UChar | Ty::Short | Ty::UShort => false,
    }
}

/// Whether a register has another kind than another.
fn differs(kinds: &[RegisterKind], register: u16, other: u16) -> bool
    ensures { result ≡ is_of_other_kind (slice_get kinds.now register) (slice_get kinds.now other) }
{
    match kinds.get(usize::from(other)) {
        Some(kind) => !is_of_kind(kinds, register, *kind),
        None => false,
    }
}

fn has_other_kind(kinds: &[RegisterKind], register: u16, wanted: Wanted) -> bool
    ensures { result ≡ has_other_kind kinds.now register wanted }
{
    match wanted {
        Wanted::Any => false,
        Wanted::Kind(kind) => !is_of_kind(kinds, register, kind),
        Wanted::Like(other) => differs(kinds, register, other),
    }
}

fn is_turn(code: &[MidLine], place: usize) -> bool
    ensures { result ≡ is_turn (slice_get code.now place) }
{
    match code.get(place) {
        Some(line) => way_of(&line.mid).is_counting(),
        None => false,
    }
}

fn is_bad_target(code: &[MidLine], place: usize, target: u32) -> bool
    ensures { result ≡ is_bad_target code.now place target }
{
    let target = target as usize;
    code.len() <= target || (target <= place && !is_turn(code, target))
}

/// A rule that is broken.
pub fn broken(rule: u8, breaks: bool) -> Option<u8>
    ensures { result ≡ broken rule breaks }
{
    if breaks { Some(rule) } else { None }
}

/// The least rule that a register breaks.
fn register_rule(kinds: &[RegisterKind], register: u16, wanted: Wanted) -> Option<u8>
    ensures { result ≡ register_rule kinds.now register wanted }
{
    if is_outside(kinds, register) {
        return Some(3);
    }
    broken(4, has_other_kind(kinds, register, wanted))
}

/// The least rule that a value for a register breaks.
fn value_rule(kinds: &[RegisterKind], value: u64, register: u16) -> Option<u8>
    ensures { result ≡ value_rule kinds.now value register }
{
    if VALUES <= value {
        return Some(1);
    }
    broken(
        4,
        0 < value && is_of_kind(kinds, register, RegisterKind::Address),
    )
}

/// The least rule that a field of the instruction at a place of a function breaks.
pub fn field_rule(
    program: &MidProgram,
    function: &MidFunction,
    place: usize,
    field: &Field,
) -> Option<u8>
    ensures { result ≡ field_rule program.now function.now place field.now }
{
    let kinds = function.kinds.as_slice();
    match field {
        Field::Writes { register, kind } | Field::Reads { register, kind } => {
            register_rule(kinds, *register, *kind)
        }
        Field::Passes(args) => broken(3, is_any_outside(kinds, args.as_slice())),
        Field::Value { value, register } => value_rule(kinds, *value, *register),
        Field::Operator(_) | Field::AnyType(_) | Field::Negated(_) => None,
        Field::Comparison(op) => broken(3, !op.is_comparison()),
        Field::ArithmeticType(ty) => broken(3, !has_arithmetic(*ty)),
        Field::Scale(scale) => broken(3, *scale == 0),
        Field::Cells(cells) => broken(1, *cells == 0),
        Field::StaticObject(object) => broken(3, !is_static(program, *object)),
        Field::Callable(number) => broken(3, !is_callable(program, *number)),
        Field::TypeNumber(ty) => broken(3, program.types.len() <= usize::from(*ty)),
        Field::Beginning(begun) => broken(5, function.code.len() <= *begun as usize),
        Field::Target(target) => broken(5, is_bad_target(function.code.as_slice(), place, *target)),
    }
}

/// The lesser of two rules, of those that are there.
fn lesser(first: Option<u8>, second: Option<u8>) -> Option<u8>
    ensures { result ≡ lesser first second }
{
    match first {
        None => second,
        Some(one) => match second {
            None => first,
            Some(two) => { if two < one { second } else { first } }
        },
    }
}

/// The same of a field that may be there.
fn item_rule(
    program: &MidProgram,
    function: &MidFunction,
    place: usize,
    item: &Option<Field>,
) -> Option<u8>
    ensures { result ≡ option_and_then (field_rule program.now function.now place) item.now }
{
    match item {
        Some(field) => field_rule(program, function, place, field),
        None => None,
    }
}

/// The least rule that one of some fields breaks.
pub fn fields_rule(
    program: &MidProgram,
    function: &MidFunction,
    place: usize,
    row: &[Option<Field>],
) -> Option<u8>
    ensures { result ≡ fields_rule program.now function.now place (present row.now) }
{
    let mut least = None;
    for item in row {
        least = lesser(least, item_rule(program, function, place, item));
    }
    least
}

/// Whether an instruction is the last, and yet would be followed by another.
pub fn runs_out(code: &[MidLine], place: usize, mid: &Mid) -> bool
    requires { place < length code.now }
    ensures { result ≡ runs_out code.now place mid.now }
{
    place + 1 == code.len() && !way_of(mid).is_final()
}

fn are_of_kinds(kinds: &[RegisterKind], args: &[u16], params: &[RegisterKind]) -> bool
    ensures { result ≡ are_of_kinds kinds.now args.now params.now }
{
    if args.len() != params.len() {
        return false;
    }
    for index in 0..args.len() {
        if !is_of_kind(kinds, args[index], params[index]) {
            return false;
        }
    }
    true
}

fn starts_with_kinds(kinds: &[RegisterKind], params: &[RegisterKind]) -> bool
    ensures { result ≡ starts_with_kinds kinds.now params.now }
{
    let shared = kinds.len().min(params.len());
    for index in 0..shared {
        if !same_kind(kinds[index], params[index]) {
            return false;
        }
    }
    true
}

fn misfits_type(
    program: &MidProgram,
    kinds: &[RegisterKind],
    target: u16,
    args: &Registers,
    ty: u16,
) -> bool
    ensures { result ≡ misfits_type kinds.now target (registers_list args.now) (slice_get program.now.types ty) }
{
    match program.types.get(usize::from(ty)) {
        Some(found) => {
            let result = is_of_kind(kinds, target, found.result);
            !result || !are_of_kinds(kinds, args.as_slice(), found.params.as_slice())
        }
        None => false,
    }
}

fn misfits_callee(
    program: &MidProgram,
    kinds: &[RegisterKind],
    target: u16,
    args: &Registers,
    callee: u16,
) -> bool
    ensures { result ≡ misfits_type kinds.now target (registers_list args.now) (type_of program.now (function_at program.now callee)) }
{
    match program.function(callee) {
        Some(function) => misfits_type(program, kinds, target, args, function.ty),
        None => false,
    }
}

fn misreturns(program: &MidProgram, kinds: &[RegisterKind], source: u16, ty: u16) -> bool
    ensures { result ≡ misreturns kinds.now source (slice_get program.now.types ty) }
{
    match program.types.get(usize::from(ty)) {
        Some(found) => !is_of_kind(kinds, source, found.result),
        None => false,
    }
}

/// Whether arguments or a result have other kinds than the type says, or `main` returns.
pub fn misfits(program: &MidProgram, number: u16, function: &MidFunction, mid: &Mid) -> bool
    ensures { result ≡ misfits program.now number function.now mid.now }
{
    let kinds = function.kinds.as_slice();
    match mid {
        Mid::Call {
            target,
            function: callee,
            args,
        } => misfits_callee(program, kinds, *target, args, *callee),
        Mid::CallPtr {
            target,
            ty,
            args,
            ..
        } => misfits_type(program, kinds, *target, args, *ty),
        Mid::Return { source } => {
            number == program.main || misreturns(program, kinds, *source, function.ty)
        }
        Mid::Const { .. }
        | Mid::Move { .. }
        | Mid::Arith { .. }
        | Mid::Conv { .. }
        | Mid::PtrAdd { .. }
        | Mid::PtrDiff { .. }
        | Mid::PtrCmp { .. }
        | Mid::GlobAddr { .. }
        | Mid::FunAddr { .. }
        | Mid::Load { .. }
        | Mid::Store { .. }
        | Mid::VLoad { .. }
        | Mid::VStore { .. }
        | Mid::Open { .. }
        | Mid::Close { .. }
        | Mid::Jump { .. }
        | Mid::JumpZ { .. }
        | Mid::JumpN { .. }
        | Mid::Turn
        | Mid::Put { .. }
        | Mid::Get { .. }
        | Mid::Exit { .. } => false,
    }
}

/// Whether the first registers of a function have other kinds than its parameters.
pub fn misfits_params(program: &MidProgram, function: &MidFunction) -> bool
    ensures { result ≡ misfits_params function.now (slice_get program.now.types function.now.ty) }
{
    match program.types.get(usize::from(function.ty)) {
        Some(found) => { !starts_with_kinds(function.kinds.as_slice(), found.params.as_slice()) }
        None => false,
    }
}
