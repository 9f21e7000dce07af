//! The syntax tree of a source's tokens (C11 6.5 to 6.9, in the accepted subset), or the place at which they
//! stop being one.
#![tactic(auto)]

mod law;
mod nesting;
mod parser;
mod refusal;
mod source;
mod statement;
mod unit;

pub use c_expr::{one_expression, spellings};
pub use c_tree::{
    BinaryOp, Block, BlockItem, CompoundOp, Declaration, Declarator, Direct, Expr, ExprNode,
    External, ForHead, ForStart, FunctionDefinition, Initializer, Item, Name, Parameter, Pointer,
    PostfixOp, PrefixOp, Specifier, SpecifierWord, Stmt, StmtNode, Suffix, TypeName, Unit,
};
pub use law::{
    one_refusal, one_unit, operators_of_levels, refusal_excludes_unit, refused_front_begins_unit,
    words_of_the_grammar,
};
pub use parser::parse;
pub use refusal::ParseRefusal;
