ghost use Rattle.std.specs.Prelude.{◌≡◌, None};
ghost use Rattle.std.specs.Option.{option_copied};
ghost use Rattle.typing_rules.specs.DeclaratorRules as rule;
ghost use Rattle.c_known.specs.Views.{line_in as told_line};
ghost use Rattle.c_declarators.specs.Derivations.{lines_view};
ghost use Rattle.c_declarators.specs.Trees.{declarator_in, declarator_if, parts_in, IsNameOf, IsNameIf};

use crate::derivation::Lines;
use crate::mark::{Mark, first_mark};
use c_known::{File, line_in};
use c_tree::{Declarator, Direct, Name};
use sqlite_items::Boxed;

/// The declared name, which is missing in an abstract declarator.
pub fn name_of(d: &Declarator) -> Option<&Name>
    ensures { IsNameOf d.now (option_copied result) }
{
    match &d.direct {
        Direct::Name(name) => Some(name),
        Direct::Nested(inner) => name_of(inner.get()),
        Direct::Unnamed => None,
    }
}

/// The same of a declarator that may be missing.
pub fn name_if(d: &Option<Boxed<Declarator>>) -> Option<&Name>
    ensures { IsNameIf d.now (option_copied result) }
{
    match d {
        None => None,
        Some(d) => name_of(d.get()),
    }
}

/// The line of a declarator's first token.
pub fn first_of_declarator(file: File, d: &Declarator) -> u32
    ensures { result ≡ rule.first_of_declarator (declarator_in file d.now) }
{
    line_in(file, d.line)
}

/// The line of the first token of a declarator that may be missing, or that of the specifiers before it.
pub fn first_if(file: File, specifiers: u32, d: &Option<Boxed<Declarator>>) -> u32
    ensures { result ≡ rule.first_of_declarator (declarator_if file specifiers d.now) }
{
    match d {
        None => line_in(file, specifiers),
        Some(d) => first_of_declarator(file, d.get()),
    }
}

/// The lines of a declarator without a name.
fn abstract_lines(file: File, specifiers: u32, d: &Declarator) -> Lines
    ensures { lines_view result ≡ rule.lines_at None (parts_in file d.now) (told_line file specifiers) }
{
    let rules = first_mark(file, Mark::Parenthesis, d).unwrap_or(line_in(file, specifiers));
    let lengths = first_mark(file, Mark::Bracket, d).unwrap_or(rules);
    Lines { rules, lengths }
}

/// The lines of a declarator behind specifiers on a line of the file.
pub fn lines_of(file: File, specifiers: u32, d: &Declarator) -> Lines
    ensures { lines_view result ≡ rule.lines_of (declarator_in file d.now) (told_line file specifiers) }
{
    match name_of(d) {
        None => abstract_lines(file, specifiers, d),
        Some(name) => {
            let line = line_in(file, name.line);
            Lines {
                rules: line,
                lengths: line,
            }
        }
    }
}

/// The same of a declarator that may be missing.
pub fn lines_if(file: File, specifiers: u32, d: &Option<Boxed<Declarator>>) -> Lines
    ensures { lines_view result ≡ rule.lines_of (declarator_if file specifiers d.now) (told_line file specifiers) }
{
    match d {
        None => {
            let line = line_in(file, specifiers);
            Lines {
                rules: line,
                lengths: line,
            }
        }
        Some(d) => lines_of(file, specifiers, d.get()),
    }
}
