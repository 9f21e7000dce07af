ghost use Rattle.std.specs.Prelude.{◌≡◌, List, option_map};
ghost use Rattle.c_types.specs.declared.type_ref.Row.{Row};
ghost use Rattle.c_types.specs.Table.{type_at, qualified_at};
ghost use Rattle.typing_rules.specs.DeclarationRules as rule;
ghost use Rattle.c_entities.specs.Views.{linked_view, storage_view};
ghost use Rattle.c_entities.specs.Changes.{Reads};

use crate::entities::Entities;
use crate::entity::{Linked, Storage};
use c_types::{QualifiedRef, Types};

impl Entities {
    /// Whether an earlier declaration at file scope has external linkage, or there is none.
    fn is_as_before(&self, before: Option<Linked>) -> bool
        ensures { (rows : List Row) → Reads rows self.now (λ k.
            result ≡ rule.as_before (option_map (linked_view (type_at rows)) before) k.entities) }
    {
        match before {
            None => true,
            Some(linked) => self.is_external(linked.entity),
        }
    }

    /// Whether a declaration gives a name external linkage (C11 6.2.2p3, p4, p5).
    pub fn linkage(&self, storage: Storage, is_function: bool, before: Option<Linked>) -> bool
        ensures { (rows : List Row) → Reads rows self.now (λ k.
            result ≡ rule.linkage (storage_view storage) is_function (option_map (linked_view (type_at rows)) before) k.entities) }
    {
        match storage {
            Storage::Static => false,
            Storage::Extern => self.is_as_before(before),
            Storage::None => !is_function || self.is_as_before(before),
        }
    }

    /// The entity that is declared again: that of the earlier declaration at file scope, or else the one of the name
    /// with external linkage that another scope or file declares (C11 6.2.2p2).
    pub fn declared_before(
        &self,
        before: Option<Linked>,
        is_external: bool,
        name: &[u8],
    ) -> Option<u32>
        ensures { (rows : List Row) → Reads rows self.now (λ k.
            result ≡ rule.entity_of (option_map (linked_view (type_at rows)) before) is_external name.now k.entities) }
    {
        match before {
            Some(linked) => Some(linked.entity),
            None => {
                if is_external {
                    self.external(name)
                } else {
                    None
                }
            }
        }
    }

    /// Whether a declaration agrees in type with those before (C11 6.2.7p2, 6.7p4).
    pub fn agrees_with(&self, types: &Types, old: Option<u32>, ty: QualifiedRef) -> bool
        ensures { Reads types.now self.now (λ k. result ≡ rule.agrees_with old (qualified_at types.now ty) k.entities) }
    {
        match old {
            None => true,
            Some(number) => types.may_be_one(self.type_of(number), ty),
        }
    }

    /// Whether a declaration agrees in linkage with those before (C11 6.2.2p7).
    pub fn has_linkage(&self, old: Option<u32>, is_external: bool) -> bool
        ensures { (rows : List Row) → Reads rows self.now (λ k. result ≡ rule.has_linkage old is_external k.entities) }
    {
        match old {
            None => true,
            Some(number) => self.is_external(number) == is_external,
        }
    }
}
