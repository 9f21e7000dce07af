ghost use Rattle.std.specs.Prelude.{◌≡◌, List, map};
ghost use Rattle.c_types.specs.declared.type_ref.Row.{Row};
ghost use Rattle.typing_rules.specs.SourceViews.{specifiers_view, word_of};
ghost use Rattle.typing_rules.specs.SpecifierRules as rule;
ghost use Rattle.typing_rules.specs.OrderedParts.{specified as said};
ghost use Rattle.c_values.specs.Answers.{Answers};
ghost use Rattle.c_known.specs.Views.{line_in as told_line};
ghost use Rattle.c_declarators.specs.Specifiers.{MeansSpecified, Says, storage_view};

use crate::words::{count_of, named, stands_in};
use c_known::{File, line_in};
use c_tree::{Specifier, SpecifierWord};
use c_types::{QualifiedRef, Qualifiers};
use typing_rules::TypeRefusal;

/// A storage-class specifier (C11 6.7.1).
#[derive(Clone, Copy, Debug, PartialEq, Eq)]
pub enum Storage {
    NoWord,
    Static,
    Extern,
}

/// What the specifiers of a declaration say.
#[derive(Clone, Copy, Debug, PartialEq, Eq)]
pub struct SpecifiedType {
    pub storage: Storage,
    pub ty: QualifiedRef,
}

/// Whether there is at most one storage word, or none where none may stand (C11 6.7.1p2, 6.7.6.3p2).
fn storage_fits(may_store: bool, words: &[Specifier]) -> bool
    ensures { result ≡ rule.storage_fits may_store (map word_of words.now) }
{
    let statics = count_of(SpecifierWord::Static, words);
    let externs = count_of(SpecifierWord::Extern, words);
    if may_store {
        statics <= 1 && externs <= 1 - statics
    } else {
        statics == 0 && externs == 0
    }
}

/// The storage word among specifiers.
fn storage_in(words: &[Specifier]) -> Storage
    ensures { storage_view result ≡ rule.storage_in (map word_of words.now) }
{
    if stands_in(SpecifierWord::Static, words) {
        Storage::Static
    } else if stands_in(SpecifierWord::Extern, words) {
        Storage::Extern
    } else {
        Storage::NoWord
    }
}

/// The qualifiers among specifiers.
fn qualifiers_in(words: &[Specifier]) -> Qualifiers
    ensures { result ≡ rule.qualifiers_in (map word_of words.now) }
{
    Qualifiers {
        is_const: stands_in(SpecifierWord::Const, words),
        is_volatile: stands_in(SpecifierWord::Volatile, words),
    }
}

/// What specifiers say, if they name a type and may stand here.
fn said_by(may_store: bool, words: &[Specifier]) -> Option<SpecifiedType>
    ensures { (rows : List Row) → Says rows result (rule.specified_by may_store (map word_of words.now)) }
{
    if !storage_fits(may_store, words) {
        return None;
    }
    match named(words) {
        None => None,
        Some(target) => Some(SpecifiedType {
            storage: storage_in(words),
            ty: QualifiedRef {
                qualifiers: qualifiers_in(words),
                target,
            },
        }),
    }
}

/// What specifiers say, where a storage word may stand among them or not (C11 6.7.1 to 6.7.3). The line is that of the
/// first of them, as the file has it.
pub fn specified(
    file: File,
    may_store: bool,
    line: u32,
    words: &[Specifier],
) -> Result<SpecifiedType, TypeRefusal>
    ensures { (rows : List Row) → Answers (MeansSpecified rows) result (said may_store (specifiers_view (told_line file) line words.now)) }
{
    match said_by(may_store, words) {
        Some(said) => Ok(said),
        None => Err(TypeRefusal::Mismatch(line_in(file, line), 21)),
    }
}
