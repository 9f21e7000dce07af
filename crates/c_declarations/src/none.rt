ghost use Rattle.std.specs.Prelude.{option_map, map};
ghost use Rattle.typing_rules.specs.SourceViews.{initial_view, initials_from, expr_view};
ghost use Rattle.typing_rules.specs.SourceUnits.{single};
ghost use Rattle.typing_rules.specs.OrderedDeclarations.{no_initial as none_given, insides as inside, all_insides as all_inside};
ghost use Rattle.c_known.specs.Views.{line_in};
ghost use Rattle.c_known.specs.Gives.{Gives, IsDone};

use c_known::{File, Known};
use c_terms::value_of;
use c_tree::{Expr, Initializer};
use typing_rules::TypeRefusal;

/// An expression whose value is not used.
pub(crate) fn inside_value(known: &mut Known, file: File, e: &Expr) -> Result<(), TypeRefusal>
    ensures { Gives IsDone known.old known.new result (inside (single (expr_view (line_in file) e.now))) }
{
    value_of(known, file, e)?;
    Ok(())
}

/// The expressions of an initializer, in order.
#[cycle(insides)]
pub(crate) fn insides(known: &mut Known, file: File, x: &Initializer) -> Result<(), TypeRefusal>
    ensures { Gives IsDone known.old known.new result (inside (initial_view (line_in file) x.now)) }
{
    match x {
        Initializer::Value(e) => inside_value(known, file, e.get()),
        Initializer::List(_, items) => all_insides(known, file, items.as_slice()),
    }
}

/// Those of several initializers.
#[cycle(insides)]
fn all_insides(known: &mut Known, file: File, items: &[Initializer]) -> Result<(), TypeRefusal>
    ensures { Gives IsDone known.old known.new result (all_inside (initials_from (map (initial_view (line_in file)) items.now))) }
{
    for item in items {
        match insides(known, file, item) {
            Ok(()) => {}
            Err(refusal) => return Err(refusal),
        }
    }
    Ok(())
}

/// Refuses an initializer where none may stand, after what its expressions have in them.
pub fn no_initial(
    known: &mut Known,
    file: File,
    at: u32,
    x: &Option<Initializer>,
) -> Result<(), TypeRefusal>
    ensures { Gives IsDone known.old known.new result (none_given at (option_map (initial_view (line_in file)) x.now)) }
{
    match x {
        None => Ok(()),
        Some(x) => match insides(known, file, x) {
            Ok(()) => Err(TypeRefusal::Mismatch(at, 16)),
            Err(refusal) => Err(refusal),
        },
    }
}
