ghost use Rattle.std.specs.Prelude.{List, map, Option};
ghost use Rattle.typing_rules.specs.SourceViews.{suffix_view, all_parts};
ghost use Rattle.c_known.specs.Views.{line_in as told_line};
ghost use Rattle.c_declarators.specs.Trees.{IsFirst, parts_before};

use c_known::{File, line_in};
use c_tree::{Declarator, Direct, Suffix};

/// A token whose line stands for a declarator without a name.
#[derive(Clone, Copy, Debug, PartialEq, Eq)]
pub(crate) enum Mark {
    /// `[`
    Bracket,
    /// `(` of a list of parameters.
    Parenthesis,
}

/// The line of a suffix that begins with such a token.
fn mark_of(file: File, mark: Mark, suffix: &Suffix) -> Option<u32>
    ensures { IsFirst mark result (suffix_view (told_line file) suffix.now) }
{
    match suffix {
        Suffix::Array(line, _) => match mark {
            Mark::Bracket => Some(line_in(file, *line)),
            Mark::Parenthesis => None,
        },
        Suffix::Function(line, _) => match mark {
            Mark::Bracket => None,
            Mark::Parenthesis => Some(line_in(file, *line)),
        },
    }
}

/// The line of the first such token among suffixes.
fn first_among(file: File, mark: Mark, suffixes: &[Suffix]) -> Option<u32>
    ensures { IsFirst mark result (all_parts (map (suffix_view (told_line file)) suffixes.now)) }
{
    for suffix in suffixes {
        if let Some(line) = mark_of(file, mark, suffix) {
            return Some(line);
        }
    }
    None
}

/// The line of the first such token in a declarator, from the name outward.
pub(crate) fn first_mark(file: File, mark: Mark, d: &Declarator) -> Option<u32>
    ensures { IsFirst mark result (parts_before file d.now) }
{
    match &d.direct {
        Direct::Nested(inner) => match first_mark(file, mark, inner.get()) {
            Some(line) => Some(line),
            None => first_among(file, mark, d.suffixes.as_slice()),
        },
        Direct::Name(_) => first_among(file, mark, d.suffixes.as_slice()),
        Direct::Unnamed => first_among(file, mark, d.suffixes.as_slice()),
    }
}
