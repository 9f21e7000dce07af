ghost use Rattle.std.specs.Prelude.{◌≡◌, ℕ, List, option_map};
ghost use Rattle.c_typed.specs.Views.{value_view};
ghost use Rattle.lower.specs.Statements.{value_or_zero};
ghost use Rattle.lower.specs.Emits.{Emits, itself, rows_of, types_of, inside_view};

use crate::emitter::Emitter;
use crate::inside::Inside;
use crate::refusal::LowerRefusal;
use crate::values::value;
use c_typed::Value;

/// The value that a `return` gives, which is 0 where it has none.
pub(crate) fn returned(
    at: Inside,
    out: &mut Emitter,
    line: u32,
    e: &Option<Value>,
) -> Result<u16, LowerRefusal>
    ensures { Emits itself (rows_of at.entry) out.old out.new result
        (value_or_zero (inside_view at.entry) line (option_map (value_view (types_of at.entry)) e.now)) }
{
    match e {
        None => out.constant(0, 0, line),
        Some(e) => value(at, out, e, 0),
    }
}
