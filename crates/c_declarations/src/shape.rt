ghost use Rattle.std.specs.Prelude.{List};
ghost use Rattle.c_typed.specs.declared.statement.Cell.{Cell as Cell'};
ghost use Rattle.typing_rules.specs.SourceUnits.{single};
ghost use Rattle.typing_rules.specs.SourceViews.{initial_view, expr_view};
ghost use Rattle.typing_rules.specs.OrderedDeclarations.{misshapen as misshapen_in_order};
ghost use Rattle.c_known.specs.Views.{line_in};
ghost use Rattle.c_declarations.specs.Cells.{Adds};

use crate::none::{inside_value, insides};
use crate::scalar::Object;
use c_known::Known;
use c_tree::{Expr, Initializer};
use typing_rules::TypeRefusal;

/// Refuses an initializer of a wrong shape, after what its expressions have in them.
pub(crate) fn misshapen(
    known: &mut Known,
    object: Object,
    x: &Initializer,
) -> Result<(), TypeRefusal>
    ensures { (before after : List Cell')
        → Adds before after known.old known.new result (misshapen_in_order object.at (initial_view (line_in object.file) x.now)) }
{
    match insides(known, object.file, x) {
        Ok(()) => Err(TypeRefusal::Mismatch(object.at, 16)),
        Err(refusal) => Err(refusal),
    }
}

/// The same of an expression.
pub(crate) fn misshapen_value(
    known: &mut Known,
    object: Object,
    e: &Expr,
) -> Result<(), TypeRefusal>
    ensures { (before after : List Cell')
        → Adds before after known.old known.new result (misshapen_in_order object.at (single (expr_view (line_in object.file) e.now))) }
{
    match inside_value(known, object.file, e) {
        Ok(()) => Err(TypeRefusal::Mismatch(object.at, 16)),
        Err(refusal) => Err(refusal),
    }
}
