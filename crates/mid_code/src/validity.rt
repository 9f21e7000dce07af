ghost use Rattle.std.specs.Prelude.{◌≡◌, ℕ, ◌+◌, ◌<◌, ◌≤◌, length, slice_get, slice_index, Some, IfSome, IfNone, OnOk, IfErr, false, if◌then◌else◌, ◌||◌, ◌&&◌, ◌==◌};
ghost use Rattle.mid_code.specs.declared.program.MidLine.{MidLine};
ghost use Rattle.mid_code.specs.Row.{Holds};
ghost use Rattle.mid_code.specs.Rules.{misfits_at, early_rule, instruction_rule, breaks_function, breaks_program};
ghost use Rattle.mid_code.specs.Valid.{IsValid, IsFirstBroken, IsSoundFunction, IsFirstIn};

use crate::field::fields;
use crate::flow::breaks_order;
use crate::limits::{breaks_function, breaks_program};
use crate::mid::Mid;
use crate::program::{MidFunction, MidProgram};
use crate::refusal::MidRefusal;
use crate::rules::{broken, fields_rule, misfits, misfits_params, runs_out};

/// Whether an instruction does not fit a type, or, where it is the first, the parameters do not.
fn misfits_at(
    program: &MidProgram,
    number: u16,
    function: &MidFunction,
    place: usize,
    mid: &Mid,
) -> bool
    ensures { result ≡ misfits_at program.now number function.now place mid.now }
{
    misfits(program, number, function, mid) || (place == 0 && misfits_params(program, function))
}

/// The least rule that an instruction breaks, but for the order of open objects.
fn early_rule(
    program: &MidProgram,
    number: u16,
    function: &MidFunction,
    place: usize,
    mid: &Mid,
) -> Option<u8>
    requires { place < length function.now.code }
    ensures { result ≡ early_rule program.now number function.now place mid.now }
{
    let of_fields = fields_rule(program, function, place, &fields(mid));
    let last = runs_out(function.code.as_slice(), place, mid);
    let unfit = misfits_at(program, number, function, place, mid);
    of_fields.or(broken(6, last)).or(broken(7, unfit))
}

/// The least rule that the instruction at a place breaks. Where it breaks none, the row has come
/// one place further.
fn rule_at(
    program: &MidProgram,
    number: u16,
    function: &MidFunction,
    row: &mut [u32],
    place: usize,
) -> Option<u8>
    requires room { length function.now.code ≤ length row.old }
    requires limit { length function.now.code ≤ 65535 }
    requires here { place < length function.now.code }
    requires holds { Holds row.old function.now.code place }
    ensures exact { (l : MidLine) → slice_get function.now.code place ≡ Some l → result ≡ instruction_rule program.now number function.now place l.mid }
    ensures next { IfNone result (Holds row.new function.now.code (place + 1)) }
{
    let code = function.code.as_slice();
    let line = code[place];
    let early = early_rule(program, number, function, place, &line.mid);
    if early.is_some() {
        return early;
    }
    if breaks_order(row, code, place) {
        return Some(8);
    }
    None
}

/// The row at the start of a pass: the first place is reached with nothing open.
fn begin(row: &mut [u32], limit: usize)
    requires { limit ≤ length row.old }
    ensures { (place : ℕ) → place < limit → slice_index row.new place ≡ (if place == 0 then 1 else 0) }
{
    for place in 0..limit {
        row[place] = if place == 0 { 1 } else { 0 };
    }
}

/// The first instruction of a function that breaks a rule.
fn first_instruction(
    program: &MidProgram,
    number: u16,
    function: &MidFunction,
    row: &mut [u32],
) -> Option<MidRefusal>
    requires room { 65535 ≤ length row.old }
    requires bounded { breaks_function program.now number function.now ≡ false }
    ensures none { IfNone result (IsSoundFunction program.now number function.now) }
    ensures first { IfSome result (λ refusal. IsFirstIn program.now number function.now refusal) }
{
    let limit = function.code.len();
    begin(row, limit);
    for place in 0..limit {
        if let Some(rule) = rule_at(program, number, function, row, place) {
            return Some(MidRefusal {
                function: number,
                place: place as u32,
                rule,
            });
        }
    }
    None
}

/// The first place of a function that breaks a rule.
fn first_in_function(
    program: &MidProgram,
    number: u16,
    function: &MidFunction,
    row: &mut [u32],
) -> Option<MidRefusal>
    requires { 65535 ≤ length row.old }
    ensures none { IfNone result (IsSoundFunction program.now number function.now) }
    ensures first { IfSome result (λ refusal. IsFirstIn program.now number function.now refusal) }
{
    if breaks_function(program, number, function) {
        return Some(MidRefusal {
            function: number,
            place: 0,
            rule: 1,
        });
    }
    let first = first_instruction(program, number, function, row);
    first
}

/// The first place of all functions that breaks a rule.
fn first_in_functions(program: &MidProgram, row: &mut [u32]) -> Option<MidRefusal>
    requires room { 65535 ≤ length row.old }
    requires bounded { breaks_program program.now ≡ false }
    ensures none { IfNone result (IsValid program.now) }
    ensures first { IfSome result (λ refusal. IsFirstBroken program.now refusal) }
{
    let functions = program.functions.as_slice();
    for index in 0..functions.len() {
        let number = index as u16 + 1;
        if let Some(refusal) = first_in_function(program, number, &functions[index], row) {
            return Some(refusal);
        }
    }
    None
}

/// Whether a program is valid, or else the first place that breaks a rule.
///
/// It takes no memory but a fixed row of 65,535 numbers.
pub fn valid(program: &MidProgram) -> Result<(), MidRefusal>
    ensures valid { OnOk result (IsValid program.now) }
    ensures refused { IfErr result (λ refusal. IsFirstBroken program.now refusal) }
{
    if breaks_program(program) {
        return Err(MidRefusal {
            function: 0,
            place: 0,
            rule: 1,
        });
    }
    let mut row = [0; 65_535];
    match first_in_functions(program, &mut row) {
        Some(refusal) => Err(refusal),
        None => Ok(()),
    }
}
