ghost use Rattle.std.specs.Prelude.{option_map};
ghost use Rattle.typing_rules.specs.SourceViews.{expr_view};
ghost use Rattle.typing_rules.specs.OrderedStatements as ordered;
ghost use Rattle.c_values.specs.Stand.{MeansValue};
ghost use Rattle.c_known.specs.Views.{line_in as told_line};
ghost use Rattle.c_known.specs.Gives.{Gives};
ghost use Rattle.c_statements.specs.Parts.{MeansValueIf};

use c_known::{File, Known};
use c_terms::value_of;
use c_tree::Expr;
use c_typed::Value;
use c_values::tested;
use sqlite_items::Boxed;
use typing_rules::TypeRefusal;

/// The condition of a statement, with the line where it is told (C11 6.8.4.1p1, 6.8.5p2).
pub(crate) fn condition(
    known: &mut Known,
    file: File,
    line: u32,
    e: &Expr,
) -> Result<Boxed<Value>, TypeRefusal>
    ensures { Gives MeansValue known.old known.new result (ordered.condition line (expr_view (told_line file) e.now)) }
{
    let operand = value_of(known, file, e)?;
    tested(&known.types, line, &operand.typed)?;
    Ok(operand.typed.value)
}

/// The condition of a `for`, if it has one.
pub(crate) fn condition_if(
    known: &mut Known,
    file: File,
    line: u32,
    e: &Option<Boxed<Expr>>,
) -> Result<Option<Boxed<Value>>, TypeRefusal>
    ensures { Gives MeansValueIf known.old known.new result (ordered.condition_if line (option_map (expr_view (told_line file)) e.now)) }
{
    match e {
        None => Ok(None),
        Some(e) => Ok(Some(condition(known, file, line, e.get())?)),
    }
}

/// The value of an expression that may be left out.
pub(crate) fn value_if(
    known: &mut Known,
    file: File,
    e: &Option<Boxed<Expr>>,
) -> Result<Option<Boxed<Value>>, TypeRefusal>
    ensures { Gives MeansValueIf known.old known.new result (ordered.value_if (option_map (expr_view (told_line file)) e.now)) }
{
    match e {
        None => Ok(None),
        Some(e) => Ok(Some(value_of(known, file, e.get())?.typed.value)),
    }
}
