ghost use Rattle.std.specs.Prelude.{map};
ghost use Rattle.c_known.specs.Views.{use_view};
ghost use Rattle.c_known.specs.Gives.{Gives, IsDone};
ghost use Rattle.c_program.specs.Whole.{all_resolved, each_resolved};

use c_known::{Known, Use};
use typing_rules::TypeRefusal;

/// Each entity of these uses is defined in a file.
fn resolve_each(known: &Known, uses: &[Use]) -> Result<(), TypeRefusal>
    ensures { Gives IsDone known.now known.now result (each_resolved (map use_view uses.now)) }
{
    for u in uses {
        if known.entities.definition(u.entity).is_undefined() {
            return Err(TypeRefusal::Unresolved(u.line));
        }
    }
    Ok(())
}

/// Each entity that is used is defined in a file (C11 6.9p3, p5).
pub fn resolve(known: &Known) -> Result<(), TypeRefusal>
    ensures { Gives IsDone known.now known.now result all_resolved }
{
    resolve_each(known, known.uses.as_slice())
}
