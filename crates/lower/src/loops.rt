ghost use Rattle.std.specs.Prelude.{◌≡◌, ℕ, List, Option, Some, None, option_map};
ghost use Rattle.std.specs.Option.{option_copied};
ghost use Rattle.c_typed.specs.Views.{value_view};
ghost use Rattle.lower.specs.Statements.{done, tested};
ghost use Rattle.lower.specs.Emits.{Emits, itself, nothing, rows_of, types_of, inside_view};
ghost use Rattle.lower.specs.Bodies.{LeavesUnless, LandsIf};

use crate::emitter::Emitter;
use crate::inside::Inside;
use crate::refusal::LowerRefusal;
use crate::values::value;
use c_typed::Value;
use sqlite_items::Boxed;

/// A value that may be missing.
pub(crate) fn given(e: &Option<Boxed<Value>>) -> Option<&Value>
    ensures { option_copied result ≡ e.now }
{
    match e {
        None => None,
        Some(e) => Some(e.get()),
    }
}

/// The register of the condition of a loop, where there is one.
pub(crate) fn test(
    at: Inside,
    out: &mut Emitter,
    e: Option<&Value>,
) -> Result<Option<u16>, LowerRefusal>
    ensures { Emits (λ r. r) (rows_of at.entry) out.old out.new result
        (tested (inside_view at.entry) (option_map (value_view (types_of at.entry)) (option_copied e.entry))) }
{
    match e {
        None => Ok(None),
        Some(e) => Ok(Some(value(at, out, e, 0)?)),
    }
}

/// A value is computed and dropped, where there is one.
pub(crate) fn compute(at: Inside, out: &mut Emitter, e: Option<&Value>) -> Result<(), LowerRefusal>
    ensures { Emits nothing (rows_of at.entry) out.old out.new result
        (done (inside_view at.entry) (option_map (value_view (types_of at.entry)) (option_copied e.entry))) }
{
    if let Some(e) = e {
        value(at, out, e, 0)?;
    }
    Ok(())
}

impl Emitter {
    /// A loop is left where its condition is 0, if it has one: the place of the jump, which waits.
    pub(crate) fn leave_unless(
        &mut self,
        line: u32,
        test: Option<u16>,
    ) -> Result<Option<u32>, LowerRefusal>
        ensures { LeavesUnless line test self.old self.new result }
    {
        match test {
            None => Ok(None),
            Some(source) => Ok(Some(self.jump_from(line, false, source)?)),
        }
    }

    /// This jump leads here, if there is one.
    pub(crate) fn lead_if(&mut self, at: Option<u32>)
        ensures { LandsIf at self.old self.new }
    {
        if let Some(at) = at {
            self.lead_here(at);
        }
    }
}
