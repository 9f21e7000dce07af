ghost use Rattle.std.specs.Prelude.{◌≡◌, IfOk};
ghost use Rattle.first_form.specs.Lowered.{put_code, tail_code, code_of, program_of};

use crate::source::{FirstForm, PutConstant};
use mid_code::{FunType, Mid, MidFunction, MidLine, MidProgram, RegisterKind};
use sqlite_items::Items;
use srmt_base::Ty;
use std::alloc::{AllocError, Global};

/// The middle code of a source of the first form.
pub fn lower_first_form(alloc: Global, form: &FirstForm) -> Result<MidProgram, AllocError>
    ensures { IfOk result (λ program. program ≡ program_of form.now) }
{
    let main_type = FunType {
        params: Items::new(alloc),
        result: RegisterKind::Number,
    };
    let main = MidFunction {
        ty: 0,
        kinds: Items::from_slice(alloc, &[RegisterKind::Number])?,
        line: form.main_line,
        code: code(alloc, form)?,
    };
    Ok(MidProgram {
        types: Items::from_vec(vec![in alloc; main_type]?),
        main_functions: 1,
        main: 1,
        main_statics: Items::new(alloc),
        binary_statics: Items::new(alloc),
        functions: Items::from_vec(vec![in alloc; main]?),
    })
}

/// The instructions of `main`.
fn code(alloc: Global, form: &FirstForm) -> Result<Items<MidLine>, AllocError>
    ensures { IfOk result (λ code. code ≡ code_of form.now) }
{
    let mut code = Vec::new(alloc);
    for put in form.puts.as_slice() {
        code.extend_from_slice(&put_code(put))?;
    }
    code.extend_from_slice(&tail_code(form))?;
    Ok(Items::from_vec(code))
}

/// `putchar(D);`
fn put_code(put: &PutConstant) -> [MidLine; 3]
    ensures { result ≡ put_code put.now }
{
    let value = Mid::Const {
        target: 0,
        value: u64::from(put.constant.value),
    };
    let convert = Mid::Conv {
        from: Ty::Int,
        to: Ty::UChar,
        target: 0,
        source: 0,
    };
    [
        line(put.constant.line, value),
        line(put.paren_line, Mid::Put { source: 0 }),
        line(put.name_line, convert),
    ]
}

/// `return D; }`
fn tail_code(form: &FirstForm) -> [MidLine; 4]
    ensures { result ≡ tail_code form.now }
{
    let status = Mid::Const {
        target: 0,
        value: u64::from(form.status.value),
    };
    let zero = Mid::Const {
        target: 0,
        value: 0,
    };
    let exit = Mid::Exit { source: 0 };
    [
        line(form.status.line, status),
        line(form.return_line, exit),
        line(form.end_line, zero),
        line(form.end_line, exit),
    ]
}

fn line(line: u32, mid: Mid) -> MidLine
    ensures { result ≡ record { line = line; mid = mid } }
{
    MidLine { line, mid }
}
