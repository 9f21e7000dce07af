//! The kinds of tokens by number, and the tables of operators and words (C11 6.4.1, 6.4.6, 6.5, 6.7).

ghost use Rattle.std.specs.Prelude.{◌≡◌, ◌<◌};
ghost use Rattle.c_expr.specs.Codes as spec;

use c_lexer::TokenKind;
use c_tree::{BinaryOp, CompoundOp, PostfixOp, PrefixOp, SpecifierWord};
use srmt_base::Op;

/// The kinds of tokens with what they mean.
pub type Table<A> = &'static [(u16, A)];

const KEYWORD: u16 = 256;

/// The kind of the first punctuator.
pub const PUNCT: u16 = 512;

/// An identifier.
pub const NAME: u16 = 0;

const NUMBER: u16 = 1;

const CHARACTER: u16 = 2;

/// A string literal.
pub const TEXT: u16 = 3;

/// A number for each kind of token, whatever its value.
pub fn code(kind: TokenKind) -> u16
    ensures { result ≡ spec.code_of kind }
{
    match kind {
        TokenKind::Name => NAME,
        TokenKind::Number(_, _) => NUMBER,
        TokenKind::Character(_) => CHARACTER,
        TokenKind::Text => TEXT,
        TokenKind::Keyword(place) => KEYWORD + u16::from(place),
        TokenKind::Punct(place) => PUNCT + u16::from(place),
    }
}

/// `[`
pub const OPEN_BRACKET: u16 = PUNCT;

/// `]`
pub const CLOSE_BRACKET: u16 = PUNCT + 1;

/// `(`
pub const OPEN_PAREN: u16 = PUNCT + 2;

/// `)`
pub const CLOSE_PAREN: u16 = PUNCT + 3;

/// `{`
pub const OPEN_BRACE: u16 = PUNCT + 4;

/// `}`
pub const CLOSE_BRACE: u16 = PUNCT + 5;

/// `*`
pub const STAR: u16 = PUNCT + 11;

/// `?`
pub const QUESTION: u16 = PUNCT + 30;

/// `:`
pub const COLON: u16 = PUNCT + 31;

/// `;`
pub const SEMICOLON: u16 = PUNCT + 32;

/// `=`
pub const EQUALS: u16 = PUNCT + 34;

/// `,`
pub const COMMA: u16 = PUNCT + 45;

/// `break`
pub const BREAK: u16 = KEYWORD + 1;

/// `continue`
pub const CONTINUE: u16 = KEYWORD + 5;

/// `do`
pub const DO: u16 = KEYWORD + 7;

/// `else`
pub const ELSE: u16 = KEYWORD + 9;

/// `for`
pub const FOR: u16 = KEYWORD + 13;

/// `if`
pub const IF: u16 = KEYWORD + 15;

/// `return`
pub const RETURN: u16 = KEYWORD + 21;

/// `sizeof`
pub const SIZEOF: u16 = KEYWORD + 24;

/// `while`
pub const WHILE: u16 = KEYWORD + 33;

/// The operators between two operands, by level from 0, the tightest first (C11 6.5.5 to 6.5.14).
#[tactic(auto, unfolding(crate::specs::Codes::binary_operators))]
pub fn binary_operators(level: u8) -> Table<BinaryOp>
    ensures { result.now ≡ spec.binary_operators level }
{
    match level {
        0 => &[
            (PUNCT + 11, BinaryOp::Arithmetic(Op::Mul)),
            (PUNCT + 16, BinaryOp::Arithmetic(Op::Div)),
            (PUNCT + 17, BinaryOp::Arithmetic(Op::Rem)),
        ],
        1 => &[
            (PUNCT + 12, BinaryOp::Arithmetic(Op::Add)),
            (PUNCT + 13, BinaryOp::Arithmetic(Op::Sub)),
        ],
        2 => &[
            (PUNCT + 18, BinaryOp::Arithmetic(Op::Shl)),
            (PUNCT + 19, BinaryOp::Arithmetic(Op::Shr)),
        ],
        3 => &[
            (PUNCT + 20, BinaryOp::Arithmetic(Op::Lt)),
            (PUNCT + 21, BinaryOp::Arithmetic(Op::Gt)),
            (PUNCT + 22, BinaryOp::Arithmetic(Op::Le)),
            (PUNCT + 23, BinaryOp::Arithmetic(Op::Ge)),
        ],
        4 => &[
            (PUNCT + 24, BinaryOp::Arithmetic(Op::Eq)),
            (PUNCT + 25, BinaryOp::Arithmetic(Op::Ne)),
        ],
        5 => &[(PUNCT + 10, BinaryOp::Arithmetic(Op::And))],
        6 => &[(PUNCT + 26, BinaryOp::Arithmetic(Op::Xor))],
        7 => &[(PUNCT + 27, BinaryOp::Arithmetic(Op::Or))],
        8 => &[(PUNCT + 28, BinaryOp::And)],
        9 => &[(PUNCT + 29, BinaryOp::Or)],
        _ => &[],
    }
}

/// How many levels of operators between two operands there are.
pub const LEVELS: u8 = 10;

/// Whether a kind lies from `&` to `||`, as all operators between two operands do.
pub fn is_among_binary(kind: u16) -> bool
    ensures { result ≡ spec.is_among_binary kind }
{
    PUNCT + 10 <= kind && kind <= PUNCT + 29
}

/// The operators of assignment, of which all but the first are compound (C11 6.5.16).
pub const ASSIGNMENT_OPERATORS: [(u16, Option<CompoundOp>); 11] = [
    (PUNCT + 34, None),
    (PUNCT + 35, Some(CompoundOp::Mul)),
    (PUNCT + 36, Some(CompoundOp::Div)),
    (PUNCT + 37, Some(CompoundOp::Rem)),
    (PUNCT + 38, Some(CompoundOp::Add)),
    (PUNCT + 39, Some(CompoundOp::Sub)),
    (PUNCT + 40, Some(CompoundOp::Shl)),
    (PUNCT + 41, Some(CompoundOp::Shr)),
    (PUNCT + 42, Some(CompoundOp::And)),
    (PUNCT + 43, Some(CompoundOp::Xor)),
    (PUNCT + 44, Some(CompoundOp::Or)),
];

/// `++` and `--` before a unary expression (C11 6.5.3.1).
pub const STEP_OPERATORS: [(u16, PrefixOp); 2] = [
    (PUNCT + 8, PrefixOp::Increment),
    (PUNCT + 9, PrefixOp::Decrement),
];

/// The unary operators, before a cast expression (C11 6.5.3.2, 6.5.3.3).
pub const UNARY_OPERATORS: [(u16, PrefixOp); 6] = [
    (PUNCT + 10, PrefixOp::AddressOf),
    (PUNCT + 11, PrefixOp::Indirection),
    (PUNCT + 12, PrefixOp::Plus),
    (PUNCT + 13, PrefixOp::Minus),
    (PUNCT + 14, PrefixOp::Complement),
    (PUNCT + 15, PrefixOp::Not),
];

/// `++` and `--` behind a postfix expression (C11 6.5.2.4).
pub const POSTFIX_OPERATORS: [(u16, PostfixOp); 2] = [
    (PUNCT + 8, PostfixOp::Increment),
    (PUNCT + 9, PostfixOp::Decrement),
];

/// The words of specifiers (C11 6.7.1 to 6.7.3).
pub const SPECIFIER_WORDS: [(u16, SpecifierWord); 11] = [
    (KEYWORD + 25, SpecifierWord::Static),
    (KEYWORD + 11, SpecifierWord::Extern),
    (KEYWORD + 4, SpecifierWord::Const),
    (KEYWORD + 32, SpecifierWord::Volatile),
    (KEYWORD + 31, SpecifierWord::Void),
    (KEYWORD + 37, SpecifierWord::Bool),
    (KEYWORD + 3, SpecifierWord::Char),
    (KEYWORD + 22, SpecifierWord::Short),
    (KEYWORD + 17, SpecifierWord::Int),
    (KEYWORD + 23, SpecifierWord::Signed),
    (KEYWORD + 30, SpecifierWord::Unsigned),
];

/// The qualifiers of a pointer, and whether each is `const` (C11 6.7.3).
pub const QUALIFIERS: [(u16, bool); 2] = [(KEYWORD + 4, true), (KEYWORD + 32, false)];

/// What stands behind a postfix expression.
pub const POSTFIX_STARTS: [u16; 4] = [OPEN_BRACKET, OPEN_PAREN, PUNCT + 8, PUNCT + 9];

/// What stands behind a declarator's name.
pub const SUFFIX_STARTS: [u16; 2] = [OPEN_BRACKET, OPEN_PAREN];

/// What stands in the middle of a declarator that may or may not have a name, behind its pointers.
pub const NAMED_STARTS: [u16; 3] = [NAME, OPEN_BRACKET, OPEN_PAREN];

/// What a declarator that may or may not have a name begins with.
pub const DECLARATOR_STARTS: [u16; 4] = [STAR, OPEN_BRACKET, OPEN_PAREN, NAME];

/// What a declarator that has no name begins with.
pub const ABSTRACT_STARTS: [u16; 3] = [STAR, OPEN_BRACKET, OPEN_PAREN];

/// What follows the `(` of a list of parameters, and of nothing else in a declarator: `)` and the words of
/// specifiers.
pub const PARAMETER_STARTS: [u16; 12] = [
    CLOSE_PAREN,
    KEYWORD + 25,
    KEYWORD + 11,
    KEYWORD + 4,
    KEYWORD + 32,
    KEYWORD + 31,
    KEYWORD + 37,
    KEYWORD + 3,
    KEYWORD + 22,
    KEYWORD + 17,
    KEYWORD + 23,
    KEYWORD + 30,
];

/// The keywords that the grammar has.
pub const GRAMMAR_WORDS: [u16; 20] = [
    KEYWORD + 25,
    KEYWORD + 11,
    KEYWORD + 4,
    KEYWORD + 32,
    KEYWORD + 31,
    KEYWORD + 37,
    KEYWORD + 3,
    KEYWORD + 22,
    KEYWORD + 17,
    KEYWORD + 23,
    KEYWORD + 30,
    SIZEOF,
    IF,
    ELSE,
    WHILE,
    DO,
    FOR,
    RETURN,
    BREAK,
    CONTINUE,
];
