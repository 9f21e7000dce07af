ghost use Rattle.std.specs.Prelude.{List};
ghost use Rattle.std.specs.Bool.{OnTrue};
ghost use Rattle.c_types.specs.Types.{Qualified};
ghost use Rattle.c_types.specs.Table.{StandsFor};
ghost use Rattle.c_typed.specs.Statements.{Cell as Cell'};
ghost use Rattle.typing_rules.specs.SourceViews.{initial_view};
ghost use Rattle.typing_rules.specs.OrderedDeclarations.{initialized as given_by};
ghost use Rattle.c_known.specs.Views.{line_in};
ghost use Rattle.c_known.specs.Gives.{Gives};
ghost use Rattle.c_declarations.specs.Parts.{MeansInitialized};
ghost use Rattle.c_declarations.specs.Cells.{AreCounted, AreExact, given_with};

use crate::completed::completed;
use crate::items::add_cells;
use crate::scalar::Object;
use c_known::{File, Known};
use c_tree::Initializer;
use c_typed::Cell;
use c_types::QualifiedRef;
use typing_rules::TypeRefusal;

/// An initializer, with the type that it completes (C11 6.7.9p22).
#[derive(Drop)]
pub struct Initialized {
    pub ty: QualifiedRef,
    pub given: Vec<Cell>,
}

/// Whether no cell's count stands still, which takes a text of 4 GiB in an object of at most 65,535 cells.
fn are_exact(cells: &[Cell]) -> bool
    ensures { OnTrue result (AreExact cells.now) }
{
    cells.iter().all(|cell| cell.index < u32::MAX)
}

/// The given cells with the type that is completed.
fn given_to(
    known: &mut Known,
    object: Object,
    ty: QualifiedRef,
    x: &Initializer,
    given: Vec<Cell>,
) -> Result<Initialized, TypeRefusal>
    ensures { (t : Qualified) (cs : List Cell') → StandsFor known.old.types ty t → AreCounted known.old.types given.items cs
        → Gives MeansInitialized known.old known.new result (given_with object.at t (initial_view (line_in object.file) x.now) cs) }
{
    match completed(known, object, ty.target, x) {
        Ok(target) => {
            if are_exact(given.as_slice()) {
                let qualifiers = ty.qualifiers;
                Ok(Initialized {
                    ty: QualifiedRef { qualifiers, target },
                    given,
                })
            } else {
                Err(TypeRefusal::Memory)
            }
        }
        Err(refusal) => Err(refusal),
    }
}

/// The given cells of an object of a type, with mismatches at the line of the declared name (C11 6.7.9).
pub fn cells_given(
    known: &mut Known,
    file: File,
    is_static: bool,
    at: u32,
    ty: QualifiedRef,
    x: &Initializer,
) -> Result<Initialized, TypeRefusal>
    ensures { (t : Qualified) → StandsFor known.old.types ty t
        → Gives MeansInitialized known.old known.new result (given_by is_static at t (initial_view (line_in file) x.now)) }
{
    let object = Object {
        file,
        is_static,
        at,
    };
    let mut given = Vec::new(known.alloc);
    match add_cells(known, object, ty.target, 0, x, &mut given) {
        Ok(()) => given_to(known, object, ty, x, given),
        Err(refusal) => Err(refusal),
    }
}
