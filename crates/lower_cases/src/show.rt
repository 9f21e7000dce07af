//! Middle code as text: a line for each type, object, function and instruction.

use anyhow::Result;
use mid_code::{MidFunction, MidProgram};
use sqlite_items::Items;
use srmt_base::Static;

/// How many registers and instructions of a function are shown one by one.
const MANY: usize = 200;

/// How many of the last instructions are shown where there are more.
const LAST: usize = 10;

/// The static objects of a part.
fn show_statics(rt: &HostRuntime, statics: &Items<Static>) -> Result<()> {
    for one in statics.as_slice() {
        let values = one.values.as_slice();
        println!(rt; "static {} {} {:?}", one.cells, one.read_only, values)?;
    }
    Ok(())
}

/// A function: the number of its type, its line and the kinds of its registers.
fn show_head(rt: &HostRuntime, function: &MidFunction) -> Result<()> {
    let kinds = function.kinds.as_slice();
    if kinds.len() > MANY {
        println!(rt;
            "function {} {} {} registers",
            function.ty,
            function.line,
            kinds.len()
        )?;
    } else {
        println!(rt; "function {} {} {:?}", function.ty, function.line, kinds)?;
    }
    Ok(())
}

/// A function with its instructions, each behind its line.
fn show_function(rt: &HostRuntime, function: &MidFunction) -> Result<()> {
    show_head(rt, function)?;
    let mut code = function.code.as_slice();
    if code.len() > MANY {
        println!(rt; "{} instructions", code.len())?;
        code = &code[code.len().saturating_sub(LAST)..];
    }
    for line in code {
        println!(rt; "{} {:?}", line.line, line.mid)?;
    }
    Ok(())
}

/// A program.
pub fn show_program(rt: &HostRuntime, program: &MidProgram) -> Result<()> {
    for ty in program.types.as_slice() {
        println!(rt; "type {:?} {:?}", ty.params.as_slice(), ty.result)?;
    }
    println!(rt; "main {} of {}", program.main, program.main_functions)?;
    show_statics(rt, &program.main_statics)?;
    println!(rt; "binary")?;
    show_statics(rt, &program.binary_statics)?;
    for function in program.functions.as_slice() {
        show_function(rt, function)?;
    }
    Ok(())
}
