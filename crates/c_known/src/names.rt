ghost use Rattle.std.specs.Prelude.{◌≡◌, Ok, option_map};
ghost use Rattle.c_types.specs.declared.type_ref.TypeRef.{TypeRef as TypeRef'};
ghost use Rattle.c_types.specs.Types.{CType};
ghost use Rattle.typing_rules.specs.Known as known;
ghost use Rattle.typing_rules.specs.Known.{found_in, innermost, predeclared_scope, all_scopes};
ghost use Rattle.typing_rules.specs.Checking.{asks};
ghost use Rattle.c_known.specs.declared.local.Meaning.TheVariants as meaning;
ghost use Rattle.c_known.specs.Views.{meaning_view};
ghost use Rattle.c_known.specs.Gives.{Gives};
ghost use Rattle.c_known.specs.Standing.{MeansMeaningIf, MeansLinkedIf};
ghost use Rattle.c_known.specs.Predeclared.{exit_scope, constant_scope};

use crate::known::Known;
use crate::local::Meaning;
use c_entities::Linked;
use c_values::Predeclared;

/// What a name means that is declared outside of every file: `putchar`, `getchar`, `exit`, `EOF`, `NULL`.
pub fn predeclared(name: &[u8]) -> Option<Meaning>
    ensures { (types : TypeRef' → CType) → option_map (meaning_view types) result ≡ found_in name.now predeclared_scope }
{
    if name == b"putchar".as_slice() {
        Some(Meaning::Predeclared(Predeclared::Putchar))
    } else if name == b"getchar".as_slice() {
        Some(Meaning::Predeclared(Predeclared::Getchar))
    } else {
        exit_or_constant(name)
    }
}

/// `exit`, `EOF` and `NULL`.
fn exit_or_constant(name: &[u8]) -> Option<Meaning>
    ensures { (types : TypeRef' → CType) → option_map (meaning_view types) result ≡ found_in name.now exit_scope }
{
    if name == b"exit".as_slice() {
        Some(Meaning::Predeclared(Predeclared::Exit))
    } else {
        predeclared_constant(name)
    }
}

/// `EOF` and `NULL`.
fn predeclared_constant(name: &[u8]) -> Option<Meaning>
    ensures { (types : TypeRef' → CType) → option_map (meaning_view types) result ≡ found_in name.now constant_scope }
{
    if name == b"EOF".as_slice() {
        Some(Meaning::Constant(u32::MAX))
    } else if name == b"NULL".as_slice() {
        Some(Meaning::Constant(0))
    } else {
        None
    }
}

/// A name of file scope.
fn as_meaning(linked: Linked) -> Meaning
    ensures { result ≡ meaning.Linked linked.entity linked.ty }
{
    Meaning::Linked(linked.entity, linked.ty)
}

impl Known {
    /// What a name means by a declaration in the innermost scope of the function, if it has one there.
    pub fn found_here(&self, name: &[u8]) -> Option<Meaning>
        ensures { Gives MeansMeaningIf self.now self.now (Ok result) (asks (λ k. found_in name.now (innermost k.scopes))) }
    {
        self.blocks.lookup_here(name)
    }

    /// What a name means at file scope so far.
    pub fn earlier(&self, name: &[u8]) -> Option<Linked>
        ensures { Gives MeansLinkedIf self.now self.now (Ok result) (asks (known.earlier name.now)) }
    {
        self.names.lookup_here(name)
    }

    /// What a name means (C11 6.2.1p4).
    pub fn meaning(&self, name: &[u8]) -> Option<Meaning>
        ensures { Gives MeansMeaningIf self.now self.now (Ok result) (asks (λ k. known.meaning_of name.now (all_scopes k))) }
    {
        if let Some(found) = self.blocks.lookup(name) {
            return Some(found);
        }
        match self.names.lookup(name) {
            Some(linked) => Some(as_meaning(linked)),
            None => predeclared(name),
        }
    }
}
