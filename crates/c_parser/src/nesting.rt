//! How deeply a token is nested.

ghost use Rattle.std.specs.Prelude.{◌≡◌, false, ◌+◌, ◌<◌, ◌≤◌, length, reverse, IfOk, OnOk};
ghost use Rattle.c_parser.specs.Nesting as spec;
ghost use Rattle.c_parser.specs.LevelStack.{levels_of, IsCounted, IsTame, AreTame};

use c_expr::codes::{
    CLOSE_BRACE, CLOSE_BRACKET, CLOSE_PAREN, COMMA, DO, ELSE, FOR, IF, OPEN_BRACE, OPEN_BRACKET,
    OPEN_PAREN, PUNCT, SEMICOLON, SIZEOF, WHILE, code,
};
use c_expr::tokens::one_of;
use c_lexer::Token;
use std::alloc::{AllocError, Global};

/// How deeply a token may be nested.
pub const NESTING: usize = 400;

/// What was read at a level: the file's, or that of an open `(`, `[` or `{`.
#[derive(Clone, Copy)]
pub struct Level {
    /// Whether it is that of a `{`.
    pub brace: bool,
    /// The operators since its start or its last `,`, `;`, `{` or `}`.
    pub operators: usize,
    /// The words of statements since its start or its last end of a statement.
    pub words: usize,
    /// Those `do` among them that are still without their `while`.
    pub dos: usize,
}

fn started(brace: bool) -> Level
    ensures { result ≡ spec.started brace }
{
    Level {
        brace,
        operators: 0,
        words: 0,
        dos: 0,
    }
}

fn is_operator(kind: u16) -> bool
    ensures { result ≡ spec.is_operator kind }
{
    let separators = [
        COMMA,
        SEMICOLON,
        OPEN_BRACE,
        CLOSE_BRACE,
        CLOSE_PAREN,
        CLOSE_BRACKET,
    ];
    kind == SIZEOF || PUNCT <= kind && !one_of(&separators, kind)
}

fn is_nesting_word(kind: u16) -> bool
    ensures { result ≡ spec.is_nesting_word kind }
{
    one_of(&[IF, ELSE, WHILE, DO, FOR], kind)
}

impl Level {
    /// What a `;` or `}` does, at sight of the token behind it.
    fn behind_end(self, kind: u16) -> Level
        ensures { result ≡ spec.behind_end kind self }
    {
        if 0 < self.dos {
            if kind == WHILE {
                Level {
                    dos: self.dos - 1,
                    ..self
                }
            } else {
                self
            }
        } else if kind == ELSE {
            self
        } else {
            Level { words: 0, ..self }
        }
    }

    /// With a token more.
    fn counted(self, kind: u16) -> Level
        requires operators { self.operators < 1000 }
        requires words { self.words < 1000 }
        requires dos { self.dos < 1000 }
        ensures { result ≡ spec.counted kind self }
    {
        if is_nesting_word(kind) {
            let dos = if kind == DO { self.dos + 1 } else { self.dos };
            Level {
                words: self.words + 1,
                dos,
                ..self
            }
        } else if is_operator(kind) {
            Level {
                operators: self.operators + 1,
                ..self
            }
        } else if one_of(&[COMMA, SEMICOLON, OPEN_BRACE], kind) {
            Level {
                operators: 0,
                ..self
            }
        } else {
            self
        }
    }

    /// What surrounds a bracket that closes; a `}` ends its operators.
    fn around_closed(self, by_brace: bool) -> Level
        ensures { result ≡ spec.around_closed by_brace self }
    {
        if by_brace {
            Level {
                operators: 0,
                ..self
            }
        } else {
            self
        }
    }

    fn weight(self) -> usize
        requires operators { self.operators < 2000 }
        requires words { self.words < 2000 }
        ensures { result ≡ spec.weight self }
    {
        self.operators + self.words
    }
}

/// The open levels in front of a token.
#[derive(Drop)]
pub struct LevelStack {
    pub innermost: Level,
    /// Those around it, the file's first.
    pub others: Vec<Level>,
    /// How many there are around it, with the operators and words of those.
    pub outer: usize,
    /// Whether the token before is a `;` of the innermost level, or a `}` that closes a `{` of it.
    pub ended: bool,
}

impl LevelStack {
    /// The innermost level as a token of a kind finds it.
    #[tactic(auto, unfolding(crate::specs::Nesting::found_by))]
    fn found_by(&self, kind: u16) -> Level
        ensures { result ≡ (spec.found_by kind (levels_of self.now)).innermost }
    {
        if self.ended {
            self.innermost.behind_end(kind)
        } else {
            self.innermost
        }
    }

    /// Opens a level inside one.
    fn open(&mut self, here: Level, brace: bool) -> Result<(), AllocError>
        requires outer { self.old.outer < 1000 }
        requires operators { here.operators < 2000 }
        requires words { here.words < 2000 }
        requires counted { IsCounted self.old }
        ensures levels { OnOk result (levels_of self.new ≡ spec.opened here brace (reverse self.old.others.items)) }
        ensures counted { OnOk result (IsCounted self.new) }
    {
        self.others.push(here)?;
        self.outer += 1 + here.weight();
        self.innermost = started(brace);
        self.ended = false;
        Ok(())
    }

    /// Leaves a level for the one around it; the file's level stays.
    fn close(&mut self, here: Level, by_brace: bool)
        requires outer { self.old.outer < 1000 }
        requires counted { IsCounted self.old }
        ensures levels { levels_of self.new ≡ spec.closed here by_brace (reverse self.old.others.items) }
        ensures counted { IsCounted self.new }
    {
        match self.others.pop() {
            None => {
                self.innermost = here.around_closed(by_brace);
                self.ended = false;
            }
            Some(around) => {
                self.outer -= 1 + around.weight();
                self.innermost = around.around_closed(by_brace);
                self.ended = by_brace && here.brace;
            }
        }
    }

    /// Reads a token of a kind at a level, as it found this.
    #[tactic(auto, unfolding(crate::specs::Nesting::behind))]
    fn read(&mut self, found: Level, kind: u16) -> Result<(), AllocError>
        requires outer { self.old.outer < 1000 }
        requires operators { found.operators < 1000 }
        requires words { found.words < 1000 }
        requires dos { found.dos < 1000 }
        requires counted { IsCounted self.old }
        ensures levels { OnOk result (levels_of self.new ≡ spec.behind kind (record { innermost = found; others = reverse self.old.others.items; ended = false })) }
        ensures counted { OnOk result (IsCounted self.new) }
    {
        let here = found.counted(kind);
        if one_of(&[OPEN_PAREN, OPEN_BRACKET, OPEN_BRACE], kind) {
            self.open(here, kind == OPEN_BRACE)?;
        } else if one_of(&[CLOSE_PAREN, CLOSE_BRACKET, CLOSE_BRACE], kind) {
            self.close(here, kind == CLOSE_BRACE);
        } else {
            self.innermost = here;
            self.ended = kind == SEMICOLON;
        }
        Ok(())
    }
}

/// The first token that is nested too deeply.
pub fn first_too_deep(alloc: Global, tokens: &[Token]) -> Result<Option<usize>, AllocError>
    ensures { IfOk result (λ found. found ≡ spec.first_too_deep tokens.now) }
{
    let mut levels = LevelStack {
        innermost: started(false),
        others: Vec::new(alloc),
        outer: 0,
        ended: false,
    };
    for (at, token) in tokens.iter().enumerate() {
        let kind = code(token.kind);
        let found = levels.found_by(kind);
        if levels.outer + found.weight() > NESTING {
            return Ok(Some(at));
        }
        levels.read(found, kind)?;
    }
    Ok(None)
}
