ghost use Rattle.std.specs.Prelude.{◌≡◌, IfOk, Some, List, [], ◌∷◌};
ghost use Rattle.c_types.specs.declared.type_ref.Row.{Row};
ghost use Rattle.srmt_base.specs.declared.ty.Ty.TheVariants.{Int as Int'};
ghost use Rattle.c_types.specs.Types.{CType, Qualified, function_of, integer, unqualified};
ghost use Rattle.c_types.specs.Table.{Extends, Stands, StandsFor};
ghost use Rattle.typing_rules.specs.Known as known;
ghost use Rattle.typing_rules.specs.Known.{type_of_predeclared};
ghost use Rattle.typing_rules.specs.Checking.{makes};
ghost use Rattle.typing_rules.specs.OrderedParts.{named as named_in_order, meant as meant_in_order};
ghost use Rattle.c_values.specs.Answers.{MeansTerm, predeclared_view};
ghost use Rattle.c_known.specs.Views.{Knows};
ghost use Rattle.c_known.specs.Gives.{Gives, IsDone};
ghost use Rattle.c_known.specs.Standing.{MeansMeaning};

use crate::known::Known;
use crate::local::{Meaning, Use};
use c_types::{QualifiedRef, Qualifiers, TypeRef, Types};
use c_values::{Designated, Predeclared, Term, linked_term, local_term, number_term};
use sqlite_items::at;
use srmt_base::Ty;
use std::alloc::AllocError;
use typing_rules::TypeRefusal;

/// A type without qualifiers.
fn unqualified_ref(target: TypeRef) -> QualifiedRef
    ensures { (type : CType) (types : List Row) → Stands types target type → StandsFor types result (unqualified type) }
{
    QualifiedRef {
        qualifiers: Qualifiers {
            is_const: false,
            is_volatile: false,
        },
        target,
    }
}

/// The type of a function with one parameter of type `int`.
fn taking_int(types: &mut Types, value: TypeRef) -> Result<TypeRef, AllocError>
    ensures kept { Extends types.old types.new }
    ensures made { (type : CType) → Stands types.old value type
        → IfOk result (λ r. Stands types.new r (function_of (integer Int' ∷ []) (unqualified type))) }
{
    let rest = types.returning(unqualified_ref(value))?;
    types.taking(TypeRef::Integer(Ty::Int), rest)
}

/// The type of a predeclared function.
pub fn predeclared_type(types: &mut Types, of: Predeclared) -> Result<TypeRef, AllocError>
    ensures kept { Extends types.old types.new }
    ensures made { IfOk result (λ r. Stands types.new r (type_of_predeclared (predeclared_view of))) }
{
    match of {
        Predeclared::Putchar => taking_int(types, TypeRef::Integer(Ty::Int)),
        Predeclared::Getchar => types.returning(unqualified_ref(TypeRef::Integer(Ty::Int))),
        Predeclared::Exit => taking_int(types, TypeRef::Void),
    }
}

impl Known {
    /// What a name is in an expression (C11 6.5.1), with its line. A use of an entity is recorded.
    pub fn named(&mut self, line: u32, name: &[u8]) -> Result<Term, TypeRefusal>
        ensures { Gives MeansTerm self.old self.new result (named_in_order line name.now) }
    {
        match self.meaning(name) {
            None => Err(TypeRefusal::Unknown(line)),
            Some(meaning) => self.meant(line, meaning),
        }
    }

    /// What a name of a meaning is in an expression.
    fn meant(&mut self, line: u32, meaning: Meaning) -> Result<Term, TypeRefusal>
        ensures { (m : known.Meaning) → MeansMeaning self.old.types meaning m → Gives MeansTerm self.old self.new result (meant_in_order line (Some m)) }
    {
        match meaning {
            Meaning::Local(number) => self.local(line, number),
            Meaning::Linked(number, ty) => self.linked(line, number, ty),
            Meaning::Predeclared(of) => self.predeclared(line, of),
            Meaning::Constant(number) => self.constant(line, number),
        }
    }

    /// The type of a local; `void` where there is none of the number.
    fn local_type(&self, number: u32) -> QualifiedRef
        ensures { (k : known.Known) → Knows self.now k → StandsFor self.now.types result (known.local_at k.locals number).type }
    {
        match at(self.locals.as_slice(), number as usize) {
            Some(local) => local.ty,
            None => unqualified_ref(TypeRef::Void),
        }
    }

    /// A local.
    fn local(&mut self, line: u32, number: u32) -> Result<Term, TypeRefusal>
        ensures { Gives MeansTerm self.old self.new result (meant_in_order line (Some (known.local number))) }
    {
        local_term(self.alloc, line, self.local_type(number), number)
    }

    /// An object or function with linkage.
    fn linked(&mut self, line: u32, number: u32, ty: QualifiedRef) -> Result<Term, TypeRefusal>
        ensures { (type : Qualified) → StandsFor self.old.types ty type
            → Gives MeansTerm self.old self.new result (meant_in_order line (Some (known.linked number type))) }
    {
        self.use_entity(number, line)?;
        let is_main = self.entities.is_main(number);
        linked_term(self.alloc, &self.types, line, number, ty, is_main)
    }

    /// An occurrence of an entity's name in an expression.
    fn use_entity(&mut self, entity: u32, line: u32) -> Result<(), TypeRefusal>
        ensures { Gives IsDone self.old self.new result (makes (known.used entity line)) }
    {
        match self.uses.push(Use { entity, line }) {
            Ok(()) => Ok(()),
            Err(_) => Err(TypeRefusal::Memory),
        }
    }

    /// A predeclared function.
    fn predeclared(&mut self, line: u32, of: Predeclared) -> Result<Term, TypeRefusal>
        ensures { Gives MeansTerm self.old self.new result (meant_in_order line (Some (known.predeclared (predeclared_view of)))) }
    {
        match predeclared_type(&mut self.types, of) {
            Ok(ty) => Ok(Term::Designator(line, Designated::Predeclared(of), ty)),
            Err(_) => Err(TypeRefusal::Memory),
        }
    }

    /// A constant of type `int`.
    fn constant(&mut self, line: u32, number: u32) -> Result<Term, TypeRefusal>
        ensures { Gives MeansTerm self.old self.new result (meant_in_order line (Some (known.constant number))) }
    {
        number_term(self.alloc, line, Ty::Int, number)
    }
}
