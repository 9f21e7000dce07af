ghost use Rattle.std.specs.Prelude.{◌≡◌, ◌+◌, ◌^◌, ◌<◌, length, IfOk, IsErrOf};
ghost use Rattle.first_form.specs.declared.source.FirstForm.{FirstForm};
ghost use Rattle.first_form.specs.FirstForm.{IsFirstForm};
ghost use Rattle.first_form.specs.Lowered.{Implements};

use crate::lowering::lower_first_form;
use crate::reading::read_first_form;
use crate::source::FormRefusal;
use mid_code::MidProgram;
use std::alloc::Global;

/// The middle code of a source.
pub fn compile_first_form(alloc: Global, source: &[u8]) -> Result<MidProgram, FormRefusal>
    requires { length source.now + 1 < 2 ^ 32 }
    ensures ok { IfOk result
        (λ program. (form : FirstForm) × IsFirstForm source.now form × Implements program form) }
    ensures none { IsErrOf result FormRefusal.Form
        → (form : FirstForm) → IsFirstForm source.now form → ⊥ }
{
    let form = read_first_form(alloc, source)?;
    Ok(lower_first_form(alloc, &form)?)
}
