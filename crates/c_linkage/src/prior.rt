ghost use Rattle.std.specs.Prelude.{◌≡◌, Option};
ghost use Rattle.c_types.specs.Types.{Qualified};
ghost use Rattle.c_types.specs.Table.{StandsFor};
ghost use Rattle.typing_rules.specs.Known as known;
ghost use Rattle.typing_rules.specs.DeclarationRules as rule;
ghost use Rattle.c_known.specs.Standing.{MeansLinkedIf};

use c_known::Linked;
use c_types::{QualifiedRef, Types};

/// What the declarations before one say of its name: what it means at file scope, whether it has external linkage
/// now, and the entity that is declared again, if there is one.
#[derive(Clone, Copy)]
pub(crate) struct Prior {
    pub before: Option<Linked>,
    pub is_external: bool,
    pub old: Option<u32>,
}

/// Whether a declaration agrees in type with the one before at file scope.
pub(crate) fn agrees_before(types: &Types, before: Option<Linked>, ty: QualifiedRef) -> bool
    ensures { (b : Option known.Linked) (t : Qualified) → MeansLinkedIf types.now before b → StandsFor types.now ty t
        → result ≡ rule.agrees_before b t }
{
    match before {
        None => true,
        Some(linked) => types.may_be_one(linked.ty, ty),
    }
}

/// The type that the declarations of a file give a name.
pub(crate) fn known_type(types: &Types, before: Option<Linked>, ty: QualifiedRef) -> QualifiedRef
    ensures { (b : Option known.Linked) (t : Qualified) → MeansLinkedIf types.now before b → StandsFor types.now ty t
        → StandsFor types.now result (rule.type_known b t) }
{
    match before {
        None => ty,
        Some(linked) => QualifiedRef {
            qualifiers: linked.ty.qualifiers,
            target: types.composite(linked.ty.target, ty.target),
        },
    }
}
