ghost use Rattle.std.specs.Prelude.{◌≡◌};
ghost use Rattle.typing_rules.specs.DeclaratorRules.{or_no_name, name_of as name_in};
ghost use Rattle.c_entities.specs.declared.entity.File.{File as File'};
ghost use Rattle.c_declarators.specs.Trees.{declarator_in};

use c_declarators::name_of;
use c_known::{File, line_in};
use c_tree::Declarator;

/// The line of a declared name.
pub(crate) fn line_of_name(file: File, d: &Declarator) -> u32
    ensures { result ≡ (or_no_name (name_in (declarator_in file d.now))).line }
{
    match name_of(d) {
        Some(name) => line_in(file, name.line),
        None => 0,
    }
}

/// The bytes of a declared name.
pub(crate) fn bytes_of_name(d: &Declarator) -> &[u8]
    ensures { (file : File') → result.now ≡ (or_no_name (name_in (declarator_in file d.now))).bytes }
{
    match name_of(d) {
        Some(name) => name.bytes.as_slice(),
        None => &[],
    }
}
