ghost use Rattle.std.specs.Prelude.{◌≡◌, List, map};
ghost use Rattle.c_types.specs.declared.type_ref.Row.{Row};
ghost use Rattle.typing_rules.specs.SourceViews.{word_of};
ghost use Rattle.typing_rules.specs.SpecifierRules as rule;
ghost use Rattle.c_declarators.specs.Specifiers.{Names, named_ref};

use c_tree::{Specifier, SpecifierWord};
use c_types::TypeRef;
use srmt_base::Ty;

/// Words that name a type, in one of their orders.
#[derive(Clone, Copy)]
pub(crate) struct Naming {
    words: &'static [SpecifierWord],
    ty: TypeRef,
}

/// The words that name a type.
const TYPE_WORDS: [SpecifierWord; 7] = [
    SpecifierWord::Void,
    SpecifierWord::Bool,
    SpecifierWord::Char,
    SpecifierWord::Short,
    SpecifierWord::Int,
    SpecifierWord::Signed,
    SpecifierWord::Unsigned,
];

macro_rules! namings {
    ($([$($word:ident)*] => $ty:expr;)*) => {
        [$(Naming { words: &[$(SpecifierWord::$word),*], ty: $ty }),*]
    };
}

/// C11 6.7.2p2, without the types that are left out.
const NAMINGS: [Naming; 16] = namings! {
    [Void] => TypeRef::Void;
    [Bool] => TypeRef::Integer(Ty::Bool);
    [Char] => TypeRef::Integer(Ty::Char);
    [Signed Char] => TypeRef::Integer(Ty::SChar);
    [Unsigned Char] => TypeRef::Integer(Ty::UChar);
    [Short] => TypeRef::Integer(Ty::Short);
    [Signed Short] => TypeRef::Integer(Ty::Short);
    [Short Int] => TypeRef::Integer(Ty::Short);
    [Signed Short Int] => TypeRef::Integer(Ty::Short);
    [Unsigned Short] => TypeRef::Integer(Ty::UShort);
    [Unsigned Short Int] => TypeRef::Integer(Ty::UShort);
    [Int] => TypeRef::Integer(Ty::Int);
    [Signed] => TypeRef::Integer(Ty::Int);
    [Signed Int] => TypeRef::Integer(Ty::Int);
    [Unsigned] => TypeRef::Integer(Ty::UInt);
    [Unsigned Int] => TypeRef::Integer(Ty::UInt);
};

/// How often a word stands among specifiers.
pub(crate) fn count_of(word: SpecifierWord, words: &[Specifier]) -> usize
    ensures { result ≡ rule.count_of word (map word_of words.now) }
{
    let mut count = 0;
    for s in words {
        if s.word == word {
            count += 1;
        }
    }
    count
}

/// How often a word stands in a naming.
fn count_in(word: SpecifierWord, words: &[SpecifierWord]) -> usize
    ensures { result ≡ rule.count_of word words.now }
{
    let mut count = 0;
    for w in words {
        if *w == word {
            count += 1;
        }
    }
    count
}

/// Whether a word stands among specifiers.
pub(crate) fn stands_in(word: SpecifierWord, words: &[Specifier]) -> bool
    ensures { result ≡ rule.stands_in word (map word_of words.now) }
{
    for s in words {
        if s.word == word {
            return true;
        }
    }
    false
}

/// Whether each of some words stands as often in a naming as among specifiers.
fn same_counts(kinds: &[SpecifierWord], naming: &[SpecifierWord], words: &[Specifier]) -> bool
    ensures { result ≡ rule.same_counts kinds.now naming.now (map word_of words.now) }
{
    for word in kinds {
        if count_in(*word, naming) != count_of(*word, words) {
            return false;
        }
    }
    true
}

/// Whether the words that name a type are those of a naming, in any order.
fn name_alike(naming: &[SpecifierWord], words: &[Specifier]) -> bool
    ensures { result ≡ rule.name_alike naming.now (map word_of words.now) }
{
    same_counts(&TYPE_WORDS, naming, words)
}

/// The type of the first of some namings that specifiers are.
fn named_in(namings: &[Naming], words: &[Specifier]) -> Option<TypeRef>
    ensures { result ≡ named_ref (map word_of words.now) namings.now }
{
    for naming in namings {
        if name_alike(naming.words, words) {
            return Some(naming.ty);
        }
    }
    None
}

/// The type that specifiers name, if they name one.
pub(crate) fn named(words: &[Specifier]) -> Option<TypeRef>
    ensures { (rows : List Row) → Names rows result (rule.named_by (map word_of words.now) rule.namings) }
{
    named_in(&NAMINGS, words)
}
