ghost use Rattle.std.specs.Prelude.{Ok, option_map};
ghost use Rattle.typing_rules.specs.SourceViews.{expr_view, for_start_view};
ghost use Rattle.typing_rules.specs.OrderedStatements as ordered;
ghost use Rattle.c_known.specs.Views.{line_in as told_line};
ghost use Rattle.c_known.specs.Gives.{Gives, IsDone};
ghost use Rattle.c_statements.specs.Steps.{for_head as head_of};
ghost use Rattle.c_statements.specs.Parts.{IsStart, IsHead};

use crate::expression::{condition_if, value_if};
use c_declarations::declared_in_block;
use c_known::{File, Known};
use c_tree::{ForHead as SourceHead, ForStart as SourceStart};
use c_typed::{ForHead, ForStart};
use typing_rules::TypeRefusal;

/// What a `for` does first; a declaration has a scope of its own, which holds the loop too (C11 6.8.5p5).
fn for_start(known: &mut Known, file: File, start: &SourceStart) -> Result<ForStart, TypeRefusal>
    ensures { Gives IsStart known.old known.new result (ordered.for_start (for_start_view (told_line file) start.now)) }
{
    match start {
        SourceStart::Expr(e) => Ok(ForStart::Value(value_if(known, file, e)?)),
        SourceStart::Declaration(d) => {
            known.open()?;
            Ok(ForStart::Locals(declared_in_block(known, file, d.get())?))
        }
    }
}

/// The end of a `for`, and of its scope if it has one.
pub(crate) fn for_end(known: &mut Known, file: File, start: &SourceStart)
    ensures { Gives IsDone known.old known.new (Ok result) (ordered.for_end (for_start_view (told_line file) start.now)) }
{
    match start {
        SourceStart::Expr(_) => {}
        SourceStart::Declaration(_) => known.close(),
    }
}

/// What stands in the parentheses of a `for` (C11 6.8.5.3).
pub(crate) fn for_head(
    known: &mut Known,
    file: File,
    line: u32,
    head: &SourceHead,
) -> Result<ForHead, TypeRefusal>
    ensures { Gives IsHead known.old known.new result
        (head_of line (for_start_view (told_line file) head.now.start) (option_map (expr_view (told_line file)) head.now.condition)
        (option_map (expr_view (told_line file)) head.now.step)) }
{
    let start = for_start(known, file, &head.start)?;
    let test = condition_if(known, file, line, &head.condition)?;
    let step = value_if(known, file, &head.step)?;
    Ok(ForHead { start, test, step })
}
