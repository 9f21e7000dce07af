ghost use Rattle.std.specs.Prelude.{◌≡◌, ◌&&◌, map};
ghost use Rattle.typing_rules.specs.SourceViews.{word_of};
ghost use Rattle.typing_rules.specs.DeclaratorRules as rule;
ghost use Rattle.c_entities.specs.declared.entity.File.{File as File'};
ghost use Rattle.typing_rules.specs.Source.{Parts};
ghost use Rattle.c_known.specs.Views.{line_in};
ghost use Rattle.c_declarators.specs.Trees.{declarator_in, declarator_if, parts_before, behind, are_none, parameters_in};

use crate::tree::name_of;
use c_known::File;
use c_tree::{Declarator, Direct, Parameter, Specifier, SpecifierWord};
use sqlite_items::Boxed;

/// Whether specifiers are `void` alone.
fn is_void_word(words: &[Specifier]) -> bool
    ensures { result ≡ rule.is_void_word (map word_of words.now) }
{
    match words {
        [only] => only.word == SpecifierWord::Void,
        _ => false,
    }
}

/// Whether nothing stands before and behind the middle of a declarator.
fn stands_alone(d: &Declarator) -> bool
    ensures { (file : File') (rest : Parts) → are_none (behind (line_in file) d.now rest) ≡ (result && are_none rest) }
{
    d.suffixes.is_empty() && d.pointers.is_empty()
}

/// Whether a declarator derives nothing.
fn has_no_parts(d: &Declarator) -> bool
    ensures { (file : File') (rest : Parts) → are_none (parts_before file d.now rest) ≡ (result && are_none rest) }
{
    match &d.direct {
        Direct::Nested(inner) => has_no_parts(inner.get()) && stands_alone(d),
        Direct::Name(_) => stands_alone(d),
        Direct::Unnamed => stands_alone(d),
    }
}

/// Whether a declarator is nothing at all.
fn is_bare(file: File, d: &Declarator) -> bool
    ensures { result ≡ rule.is_bare (declarator_in file d.now) }
{
    match name_of(d) {
        Some(_) => false,
        None => has_no_parts(d),
    }
}

/// The same of a declarator that may be missing, behind specifiers on a line of the file.
fn is_bare_if(file: File, line: u32, d: &Option<Boxed<Declarator>>) -> bool
    ensures { result ≡ rule.is_bare (declarator_if file line d.now) }
{
    match d {
        None => true,
        Some(d) => is_bare(file, d.get()),
    }
}

/// Whether a list of parameters is empty: nothing, or `void` alone (C11 6.7.6.3p10, p14).
pub fn is_empty_list(file: File, ps: &[Parameter]) -> bool
    ensures { result ≡ rule.is_empty_list (parameters_in file ps.now) }
{
    match ps {
        [] => true,
        [p] => is_void_word(p.specifiers.as_slice()) && is_bare_if(file, p.line, &p.declarator),
        _ => false,
    }
}
