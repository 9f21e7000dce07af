use crate::name::Name;
use crate::operator::{BinaryOp, CompoundOp, PostfixOp, PrefixOp};
use crate::specifier::{Pointer, Specifier};
use sqlite_items::{Boxed, Items};
use srmt_base::Ty;

/// An expression (C11 6.5).
#[cycle(expression)]
#[derive(Drop)]
pub struct Expr {
    /// The line of its first token.
    pub line: u32,
    pub node: ExprNode,
}

/// What an expression is.
#[cycle(expression)]
#[derive(Drop)]
pub enum ExprNode {
    /// The bytes of an identifier.
    Name(Items<u8>),
    /// An integer constant: `Int` or `UInt`, and the value.
    Number(Ty, u32),
    /// A character constant, of type `Int`: the value modulo 2^32.
    Character(u32),
    /// Adjacent string literals: the bytes of all, with the escapes read.
    Text(Items<u8>),
    /// An expression in parentheses.
    Parenthesized(Boxed<Expr>),
    /// The array, the line of the `[`, and the index (C11 6.5.2.1).
    Index(Boxed<Expr>, u32, Boxed<Expr>),
    /// What is called, the line of the `(`, and the arguments (C11 6.5.2.2).
    Call(Boxed<Expr>, u32, Items<Boxed<Expr>>),
    /// The operand, the operator and its line.
    Postfix(Boxed<Expr>, PostfixOp, u32),
    /// The operator, whose line is that of the node, and the operand.
    Prefix(PrefixOp, Boxed<Expr>),
    /// `sizeof` of an expression (C11 6.5.3.4).
    SizeofExpr(Boxed<Expr>),
    /// `sizeof` of a type.
    SizeofType(Boxed<TypeName>),
    /// The type and the operand (C11 6.5.4).
    Cast(Boxed<TypeName>, Boxed<Expr>),
    /// The left operand, the operator, its line, and the right operand (C11 6.5.5 to 6.5.14).
    Binary(Boxed<Expr>, BinaryOp, u32, Boxed<Expr>),
    /// The condition, the line of the `?`, and both branches (C11 6.5.15).
    Conditional(Boxed<Expr>, u32, Boxed<Expr>, Boxed<Expr>),
    /// The left side, the operator of a compound assignment, the operator's line, and the right side
    /// (C11 6.5.16).
    Assign(Boxed<Expr>, Option<CompoundOp>, u32, Boxed<Expr>),
    /// The operands whose values are dropped, at least one, from the left, and the last operand (C11 6.5.17).
    Comma(Items<Boxed<Expr>>, Boxed<Expr>),
}

/// The name of a type (C11 6.7.7).
#[cycle(expression)]
#[derive(Drop)]
pub struct TypeName {
    /// The line of its first specifier.
    pub line: u32,
    /// At least one.
    pub specifiers: Items<Specifier>,
    /// A declarator that names nothing.
    pub declarator: Option<Boxed<Declarator>>,
}

/// A declarator (C11 6.7.6), or an abstract declarator (C11 6.7.7), which names nothing.
#[cycle(expression)]
#[derive(Drop)]
pub struct Declarator {
    /// The line of its first token.
    pub line: u32,
    /// The `*` before it, from the left.
    pub pointers: Items<Pointer>,
    pub direct: Direct,
    /// What stands behind it, from the left.
    pub suffixes: Items<Suffix>,
}

/// What stands in the middle of a declarator.
#[cycle(expression)]
#[derive(Drop)]
pub enum Direct {
    /// The declared name.
    Name(Name),
    /// A declarator in parentheses.
    Nested(Boxed<Declarator>),
    /// Nothing, in an abstract declarator.
    Unnamed,
}

/// What stands behind a declarator (C11 6.7.6.2, 6.7.6.3).
#[cycle(expression)]
#[derive(Drop)]
pub enum Suffix {
    /// The line of the `[`, and the length.
    Array(u32, Option<Boxed<Expr>>),
    /// The line of the `(`, and the parameters.
    Function(u32, Items<Parameter>),
}

/// A declaration of a parameter (C11 6.7.6).
#[cycle(expression)]
#[derive(Drop)]
pub struct Parameter {
    /// The line of its first specifier.
    pub line: u32,
    /// At least one.
    pub specifiers: Items<Specifier>,
    /// With or without a name.
    pub declarator: Option<Boxed<Declarator>>,
}
