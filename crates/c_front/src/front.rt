ghost use Rattle.std.specs.Prelude.{◌≤◌, Some, None, length, IfOk, IfErr, IfSome, option_copied};
ghost use Rattle.c_typed.specs.Statements.{Program};
ghost use Rattle.c_typed.specs.StatementViews.{program_view};
ghost use Rattle.answers.specs.declared.answer.CompileRefusal.{CompileRefusal};
ghost use Rattle.c_front.specs.Front.{TypesFiles, RefusesFiles, IsRefusal, Gives, Tells};

use crate::layer::{lex, parse_file, type_files};
use answers::{RunAnswer, Which};
use c_typed::TypedProgram;
use std::alloc::Global;

/// The typed program of a main file and, where there is one, a binary file, or the answer that stopped it.
pub fn check_files(
    alloc: Global,
    main: &[u8],
    binary: Option<&[u8]>,
) -> Result<TypedProgram, RunAnswer>
    requires main { length main.now ≤ 1048576 }
    requires binary { IfSome (option_copied binary) (λ src. length src ≤ 1048576) }
    // A program is one of the files by the typing relation, and a refusal the first that a layer has.
    ensures ok { IfOk result (λ found. TypesFiles main.now (option_copied binary.entry) (program_view found)) }
    ensures err { IfErr result (IsRefusal (RefusesFiles main.now (option_copied binary.entry))) }
    // The typed program is found, and each refusal told, unless memory ran out.
    ensures found { (program : Program) → TypesFiles main.now (option_copied binary.entry) program → Gives result program }
    ensures told { (cause : CompileRefusal) → RefusesFiles main.now (option_copied binary.entry) cause → Tells result cause }
{
    program_of(alloc, main, binary)
}

/// The same, without what is known beforehand.
fn program_of(alloc: Global, main: &[u8], binary: Option<&[u8]>) -> Result<TypedProgram, RunAnswer>
    requires main { length main.now ≤ 1048576 }
    requires binary { IfSome (option_copied binary) (λ src. length src ≤ 1048576) }
    ensures ok { IfOk result (λ found. TypesFiles main.now (option_copied binary.entry) (program_view found)) }
    ensures err { IfErr result (IsRefusal (RefusesFiles main.now (option_copied binary.entry))) }
{
    match binary {
        None => main_program(alloc, main),
        Some(binary) => whole_program(alloc, main, binary),
    }
}

/// The typed program of a main file alone.
fn main_program(alloc: Global, main: &[u8]) -> Result<TypedProgram, RunAnswer>
    requires { length main.now ≤ 1048576 }
    ensures ok { IfOk result (λ found. TypesFiles main.now None (program_view found)) }
    ensures err { IfErr result (IsRefusal (RefusesFiles main.now None)) }
{
    let tokens = lex(alloc, Which::Main, main)?;
    let unit = parse_file(alloc, Which::Main, &tokens, main)?;
    type_files(alloc, &unit, None)
}

/// The typed program of both files.
fn whole_program(alloc: Global, main: &[u8], binary: &[u8]) -> Result<TypedProgram, RunAnswer>
    requires main { length main.now ≤ 1048576 }
    requires binary { length binary.now ≤ 1048576 }
    ensures ok { IfOk result (λ found. TypesFiles main.now (Some binary.now) (program_view found)) }
    ensures err { IfErr result (IsRefusal (RefusesFiles main.now (Some binary.now))) }
{
    let tokens = lex(alloc, Which::Main, main)?;
    let others = lex(alloc, Which::Binary, binary)?;
    let unit = parse_file(alloc, Which::Main, &tokens, main)?;
    let other = parse_file(alloc, Which::Binary, &others, binary)?;
    type_files(alloc, &unit, Some(&other))
}
