//! Expressions (C11 6.5).

ghost use Rattle.std.specs.Prelude.{◌≡◌, ◌++◌, ◌<◌, ◌≤◌, length, IfOk};
ghost use Rattle.c_expr.specs.Reading as reading;
ghost use Rattle.c_expr.specs.Nodes as nodes;
ghost use Rattle.c_expr.specs.Parts as parts;
ghost use Rattle.c_expr.specs.Outcome.{Gives, seen, at_depth, Leads};
ghost use Rattle.c_expr.specs.declared.start.Start.TheVariants as start;

use crate::codes::{
    ASSIGNMENT_OPERATORS, CLOSE_BRACKET, CLOSE_PAREN, COLON, COMMA, LEVELS, NAME, OPEN_BRACKET,
    OPEN_PAREN, POSTFIX_OPERATORS, POSTFIX_STARTS, QUESTION, SIZEOF, STEP_OPERATORS, TEXT,
    UNARY_OPERATORS, binary_operators,
};
use crate::fault::{Fault, Read};
use crate::grammar::Grammar;
use crate::leaf::{spelling, text_of};
use crate::start::{Naming, Start};
use crate::tokens::{begins, begins_in, begins_type, may_go_on, one, one_text, sign};
use c_lexer::{Token, TokenKind};
use c_tree::{BinaryOp, CompoundOp, Declarator, Expr, ExprNode, PrefixOp, TypeName};
use sqlite_items::{Boxed, Items};
use std::alloc::{AllocError, Global};

/// The node of a number or a character constant.
fn constant_node(kind: TokenKind) -> Option<ExprNode>
    ensures { result ≡ nodes.constant_node kind }
{
    match kind {
        TokenKind::Number(ty, value) => Some(ExprNode::Number(ty, value)),
        TokenKind::Character(value) => Some(ExprNode::Character(value)),
        TokenKind::Name | TokenKind::Text | TokenKind::Keyword(_) | TokenKind::Punct(_) => None,
    }
}

/// A node at a line.
#[tactic(auto, unfolding(crate::specs::Nodes::at_line))]
fn at_line(alloc: Global, line: u32, node: ExprNode) -> Result<Boxed<Expr>, AllocError>
    ensures { IfOk result (λ x. x ≡ nodes.at_line line node) }
{
    Boxed::new(alloc, Expr { line, node })
}

/// The line of an expression's first token.
#[tactic(auto, unfolding(crate::specs::Nodes::line_of))]
fn line_of(expr: &Boxed<Expr>) -> u32
    ensures { result ≡ nodes.line_of expr.now }
{
    expr.get().line
}

/// A name.
fn name<'t>(alloc: Global, src: &[u8], tokens: &'t [Token]) -> Read<'t, Boxed<Expr>>
    ensures { Gives seen result (parts.name_line src.now tokens.now) }
{
    let (first, rest) = one(NAME, tokens)?;
    let bytes = spelling(alloc, src, first)?;
    let name = at_line(alloc, first.line, ExprNode::Name(bytes))?;
    Ok((name, rest))
}

/// The bytes of texts behind bytes of the same node.
#[tactic(auto, unfolding(crate::specs::Reading::grown_from))]
fn text_bytes_behind<'t>(
    alloc: Global,
    src: &[u8],
    before: Items<u8>,
    tokens: &'t [Token],
) -> Read<'t, Items<u8>>
    ensures { Gives seen result (parts.texts_behind src.now before tokens.now) }
{
    let mut bytes = before;
    let mut rest = tokens;
    for _turn in 0..tokens.len() {
        if !begins(&[TEXT], rest) {
            break;
        }
        let (text, more) = one_text(rest)?;
        let next = text_of(alloc, src, text)?;
        bytes.append(next)?;
        rest = more;
    }
    Ok((bytes, rest))
}

/// Whether an expression is a unary expression (C11 6.5.3), which alone may stand left of an assignment operator.
#[tactic(auto, unfolding(crate::specs::Nodes::is_unary))]
fn is_unary(expr: &Expr) -> bool
    ensures { result ≡ nodes.is_unary expr.now }
{
    match &expr.node {
        ExprNode::Cast(_, _) => false,
        ExprNode::Binary(_, _, _, _) => false,
        ExprNode::Conditional(_, _, _, _) => false,
        ExprNode::Assign(_, _, _, _) => false,
        ExprNode::Comma(_, _) => false,
        _ => true,
    }
}

/// The operands of a comma expression, or the one operand alone.
fn comma_node(
    alloc: Global,
    dropped: Items<Boxed<Expr>>,
    last: Boxed<Expr>,
) -> Result<Boxed<Expr>, AllocError>
    ensures { IfOk result (λ x. x ≡ nodes.comma_node (dropped, last)) }
{
    let line = match dropped.as_slice() {
        [] => return Ok(last),
        [first, ..] => line_of(first),
    };
    at_line(alloc, line, ExprNode::Comma(dropped, last))
}

impl<'s, E, D> Grammar<'s, E, D>
where
    E: Fn(Start, &[Token]) -> Result<(Boxed<Expr>, &[Token]), Fault>,
    D: Fn(Naming, &[Token]) -> Result<(Declarator, &[Token]), Fault>,
{
    /// A number or a character constant.
    #[tactic(auto, unfolding(crate::specs::Reading::constant, crate::specs::Reading::token))]
    fn constant<'t>(&self, tokens: &'t [Token]) -> Read<'t, Boxed<Expr>>
        ensures { Gives seen result (at_depth reading.constant self.now.src.now self.now.depth tokens.now) }
    {
        match tokens {
            [] => Err(Fault::Refused(0)),
            [first, rest @ ..] => match constant_node(first.kind) {
                None => Err(Fault::Refused(tokens.len())),
                Some(node) => Ok((at_line(self.alloc, first.line, node)?, rest)),
            },
        }
    }

    /// Adjacent texts.
    #[tactic(auto, unfolding(crate::specs::Reading::texts))]
    fn texts<'t>(&self, tokens: &'t [Token]) -> Read<'t, Boxed<Expr>>
        ensures { Gives seen result (at_depth reading.texts self.now.src.now self.now.depth tokens.now) }
    {
        let (first, rest) = one_text(tokens)?;
        let bytes = text_of(self.alloc, self.src, first)?;
        let (bytes, rest) = text_bytes_behind(self.alloc, self.src, bytes, rest)?;
        let text = at_line(self.alloc, first.line, ExprNode::Text(bytes))?;
        Ok((text, rest))
    }

    /// An expression in parentheses.
    #[tactic(auto, unfolding(crate::specs::Reading::parenthesized, crate::specs::Nodes::at_line))]
    fn parenthesized<'t>(&self, tokens: &'t [Token]) -> Read<'t, Boxed<Expr>>
        requires { Leads E.Fn D.Fn self.now.expr self.now.declarator self.now.src.now self.now.depth }
        ensures { Gives seen result (at_depth reading.parenthesized self.now.src.now self.now.depth tokens.now) }
    {
        let (open, rest) = one(OPEN_PAREN, tokens)?;
        let (inner, rest) = (self.expr)(Start::Expression, rest)?;
        let (_close, rest) = one(CLOSE_PAREN, rest)?;
        let expr = at_line(self.alloc, open.line, ExprNode::Parenthesized(inner))?;
        Ok((expr, rest))
    }

    /// C11 6.5.1
    #[tactic(auto, unfolding(crate::specs::Reading::primary))]
    fn primary<'t>(&self, tokens: &'t [Token]) -> Read<'t, Boxed<Expr>>
        requires { Leads E.Fn D.Fn self.now.expr self.now.declarator self.now.src.now self.now.depth }
        ensures { Gives seen result (at_depth reading.primary self.now.src.now self.now.depth tokens.now) }
    {
        if begins(&[NAME], tokens) {
            name(self.alloc, self.src, tokens)
        } else if begins(&[TEXT], tokens) {
            self.texts(tokens)
        } else if begins(&[OPEN_PAREN], tokens) {
            self.parenthesized(tokens)
        } else {
            self.constant(tokens)
        }
    }

    /// `[`, an index and `]` behind an array (C11 6.5.2.1).
    #[tactic(auto, unfolding(crate::specs::Reading::index, crate::specs::Nodes::at_line, crate::specs::Nodes::line_of))]
    fn index<'t>(&self, left: Boxed<Expr>, tokens: &'t [Token]) -> Read<'t, Boxed<Expr>>
        requires { Leads E.Fn D.Fn self.now.expr self.now.declarator self.now.src.now self.now.depth }
        ensures { Gives seen result (parts.applied (at_depth reading.index self.now.src.now self.now.depth) left tokens.now) }
    {
        let (open, rest) = one(OPEN_BRACKET, tokens)?;
        let (index, rest) = (self.expr)(Start::Expression, rest)?;
        let (_close, rest) = one(CLOSE_BRACKET, rest)?;
        let line = line_of(&left);
        let node = ExprNode::Index(left, open.line, index);
        Ok((at_line(self.alloc, line, node)?, rest))
    }

    /// An argument behind a comma.
    fn next_argument<'t>(&self, tokens: &'t [Token]) -> Read<'t, Boxed<Expr>>
        requires { Leads E.Fn D.Fn self.now.expr self.now.declarator self.now.src.now self.now.depth }
        ensures { Gives seen result (reading.behind_comma (reading.expr_at self.now.src.now self.now.depth start.Assignment) tokens.now) }
    {
        let (_comma, rest) = one(COMMA, tokens)?;
        let (argument, rest) = (self.expr)(Start::Assignment, rest)?;
        Ok((argument, rest))
    }

    /// At least one argument.
    #[tactic(auto, unfolding(crate::specs::Reading::grown_from))]
    fn some_arguments<'t>(&self, tokens: &'t [Token]) -> Read<'t, Items<Boxed<Expr>>>
        requires { Leads E.Fn D.Fn self.now.expr self.now.declarator self.now.src.now self.now.depth }
        ensures { Gives seen result (reading.listed (reading.expr_at self.now.src.now self.now.depth start.Assignment) tokens.now) }
    {
        let mut found = Items::new(self.alloc);
        let (first, mut rest) = (self.expr)(Start::Assignment, tokens)?;
        found.push(first)?;
        for _turn in 0..rest.len() {
            if !begins(&[COMMA], rest) {
                break;
            }
            let (next, more) = self.next_argument(rest)?;
            found.push(next)?;
            rest = more;
        }
        Ok((found, rest))
    }

    /// What stands between the parentheses of a call.
    #[tactic(auto, unfolding(crate::specs::Reading::arguments))]
    fn arguments<'t>(&self, tokens: &'t [Token]) -> Read<'t, Items<Boxed<Expr>>>
        requires { Leads E.Fn D.Fn self.now.expr self.now.declarator self.now.src.now self.now.depth }
        ensures { Gives seen result (at_depth reading.arguments self.now.src.now self.now.depth tokens.now) }
    {
        if begins(&[CLOSE_PAREN], tokens) {
            return Ok((Items::new(self.alloc), tokens));
        }
        let (found, rest) = self.some_arguments(tokens)?;
        Ok((found, rest))
    }

    /// `(`, arguments and `)` behind what is called (C11 6.5.2.2).
    #[tactic(auto, unfolding(crate::specs::Reading::call, crate::specs::Nodes::at_line, crate::specs::Nodes::line_of))]
    fn call<'t>(&self, left: Boxed<Expr>, tokens: &'t [Token]) -> Read<'t, Boxed<Expr>>
        requires { Leads E.Fn D.Fn self.now.expr self.now.declarator self.now.src.now self.now.depth }
        ensures { Gives seen result (parts.applied (at_depth reading.call self.now.src.now self.now.depth) left tokens.now) }
    {
        let (open, rest) = one(OPEN_PAREN, tokens)?;
        let (arguments, rest) = self.arguments(rest)?;
        let (_close, rest) = one(CLOSE_PAREN, rest)?;
        let line = line_of(&left);
        let node = ExprNode::Call(left, open.line, arguments);
        Ok((at_line(self.alloc, line, node)?, rest))
    }

    /// `++` or `--` behind its operand (C11 6.5.2.4).
    #[tactic(auto, unfolding(crate::specs::Nodes::at_line, crate::specs::Nodes::line_of))]
    fn step<'t>(&self, left: Boxed<Expr>, tokens: &'t [Token]) -> Read<'t, Boxed<Expr>>
        requires { Leads E.Fn D.Fn self.now.expr self.now.declarator self.now.src.now self.now.depth }
        ensures { Gives seen result (parts.applied parts.step left tokens.now) }
    {
        let ((at, op), rest) = sign(&POSTFIX_OPERATORS, tokens)?;
        let line = line_of(&left);
        let node = ExprNode::Postfix(left, op, at);
        Ok((at_line(self.alloc, line, node)?, rest))
    }

    /// What stands behind a postfix expression, with it.
    #[tactic(auto, unfolding(crate::specs::Reading::postfix_part))]
    fn postfix_part<'t>(&self, left: Boxed<Expr>, tokens: &'t [Token]) -> Read<'t, Boxed<Expr>>
        requires { Leads E.Fn D.Fn self.now.expr self.now.declarator self.now.src.now self.now.depth }
        ensures { Gives seen result (parts.applied (at_depth reading.postfix_part self.now.src.now self.now.depth) left tokens.now) }
    {
        if begins(&[OPEN_BRACKET], tokens) {
            self.index(left, tokens)
        } else if begins(&[OPEN_PAREN], tokens) {
            self.call(left, tokens)
        } else {
            self.step(left, tokens)
        }
    }

    /// C11 6.5.2
    #[tactic(auto, unfolding(crate::specs::Reading::postfix, crate::specs::Reading::grown_from))]
    fn postfix<'t>(&self, tokens: &'t [Token]) -> Read<'t, Boxed<Expr>>
        requires { Leads E.Fn D.Fn self.now.expr self.now.declarator self.now.src.now self.now.depth }
        ensures { Gives seen result (at_depth reading.postfix self.now.src.now self.now.depth tokens.now) }
    {
        let (mut left, mut rest) = self.primary(tokens)?;
        for _turn in 0..rest.len() {
            if !begins(&POSTFIX_STARTS, rest) {
                break;
            }
            let (longer, more) = self.postfix_part(left, rest)?;
            left = longer;
            rest = more;
        }
        Ok((left, rest))
    }

    /// The name of a type in parentheses.
    fn enclosed_type<'t>(&self, tokens: &'t [Token]) -> Read<'t, Boxed<TypeName>>
        requires { Leads E.Fn D.Fn self.now.expr self.now.declarator self.now.src.now self.now.depth }
        ensures { Gives seen result (reading.in_parens (at_depth reading.type_name self.now.src.now self.now.depth) tokens.now) }
    {
        let (_open, rest) = one(OPEN_PAREN, tokens)?;
        let (ty, rest) = self.type_name(rest)?;
        let (_close, rest) = one(CLOSE_PAREN, rest)?;
        Ok((ty, rest))
    }

    /// What `sizeof` is applied to, with a node at its line.
    #[tactic(auto, unfolding(crate::specs::Nodes::at_line))]
    fn measured<'t>(&self, line: u32, tokens: &'t [Token]) -> Read<'t, Boxed<Expr>>
        requires { Leads E.Fn D.Fn self.now.expr self.now.declarator self.now.src.now self.now.depth }
        ensures { Gives seen result (at_depth parts.measured self.now.src.now self.now.depth line tokens.now) }
    {
        if begins_type(tokens) {
            let (ty, rest) = self.enclosed_type(tokens)?;
            return Ok((at_line(self.alloc, line, ExprNode::SizeofType(ty))?, rest));
        }
        let (operand, rest) = (self.expr)(Start::Unary, tokens)?;
        let expr = at_line(self.alloc, line, ExprNode::SizeofExpr(operand))?;
        Ok((expr, rest))
    }

    /// `sizeof` and what it is applied to (C11 6.5.3.4).
    #[tactic(auto, unfolding(crate::specs::Reading::sizeof))]
    fn sizeof<'t>(&self, tokens: &'t [Token]) -> Read<'t, Boxed<Expr>>
        requires { Leads E.Fn D.Fn self.now.expr self.now.declarator self.now.src.now self.now.depth }
        ensures { Gives seen result (at_depth reading.sizeof self.now.src.now self.now.depth tokens.now) }
    {
        let (word, rest) = one(SIZEOF, tokens)?;
        let (expr, rest) = self.measured(word.line, rest)?;
        Ok((expr, rest))
    }

    /// An operator of a table before its operand.
    #[tactic(auto, unfolding(crate::specs::Reading::prefix, crate::specs::Nodes::at_line))]
    fn prefix<'t>(
        &self,
        table: &[(u16, PrefixOp)],
        start: Start,
        tokens: &'t [Token],
    ) -> Read<'t, Boxed<Expr>>
        requires { Leads E.Fn D.Fn self.now.expr self.now.declarator self.now.src.now self.now.depth }
        ensures { Gives seen result (at_depth reading.prefix self.now.src.now self.now.depth table.now start tokens.now) }
    {
        let ((line, op), rest) = sign(table, tokens)?;
        let (operand, rest) = (self.expr)(start, rest)?;
        let expr = at_line(self.alloc, line, ExprNode::Prefix(op, operand))?;
        Ok((expr, rest))
    }

    /// C11 6.5.3
    #[tactic(auto, unfolding(crate::specs::Reading::unary))]
    pub fn unary<'t>(&self, tokens: &'t [Token]) -> Read<'t, Boxed<Expr>>
        requires { Leads E.Fn D.Fn self.now.expr self.now.declarator self.now.src.now self.now.depth }
        ensures { Gives seen result (at_depth reading.unary self.now.src.now self.now.depth tokens.now) }
    {
        if begins(&[SIZEOF], tokens) {
            self.sizeof(tokens)
        } else if begins_in(&STEP_OPERATORS, tokens) {
            self.prefix(&STEP_OPERATORS, Start::Unary, tokens)
        } else if begins_in(&UNARY_OPERATORS, tokens) {
            self.prefix(&UNARY_OPERATORS, Start::Cast, tokens)
        } else {
            self.postfix(tokens)
        }
    }

    /// A type in parentheses and its operand (C11 6.5.4).
    #[tactic(auto, unfolding(crate::specs::Reading::typed, crate::specs::Nodes::at_line))]
    fn typed<'t>(&self, tokens: &'t [Token]) -> Read<'t, Boxed<Expr>>
        requires { Leads E.Fn D.Fn self.now.expr self.now.declarator self.now.src.now self.now.depth }
        ensures { Gives seen result (at_depth reading.typed self.now.src.now self.now.depth tokens.now) }
    {
        let (open, rest) = one(OPEN_PAREN, tokens)?;
        let (ty, rest) = self.type_name(rest)?;
        let (_close, rest) = one(CLOSE_PAREN, rest)?;
        let (operand, rest) = (self.expr)(Start::Cast, rest)?;
        let expr = at_line(self.alloc, open.line, ExprNode::Cast(ty, operand))?;
        Ok((expr, rest))
    }

    /// C11 6.5.4
    #[tactic(auto, unfolding(crate::specs::Reading::cast))]
    pub fn cast<'t>(&self, tokens: &'t [Token]) -> Read<'t, Boxed<Expr>>
        requires { Leads E.Fn D.Fn self.now.expr self.now.declarator self.now.src.now self.now.depth }
        ensures { Gives seen result (at_depth reading.cast self.now.src.now self.now.depth tokens.now) }
    {
        if begins_type(tokens) {
            self.typed(tokens)
        } else {
            self.unary(tokens)
        }
    }

    /// An operator of a level with its right operand behind a left operand, with it.
    #[cycle(level)]
    fn operation<'t>(
        &self,
        level: u8,
        left: Boxed<Expr>,
        tokens: &'t [Token],
    ) -> Read<'t, Boxed<Expr>>
        requires { Leads E.Fn D.Fn self.now.expr self.now.declarator self.now.src.now self.now.depth }
        ensures { Gives seen result (at_depth parts.operation_behind self.now.src.now self.now.depth level left tokens.now) }
    {
        let ((line, op), rest) = sign(binary_operators(level), tokens)?;
        let (right, rest) = self.level(level, rest)?;
        let at = line_of(&left);
        let expr = at_line(self.alloc, at, ExprNode::Binary(left, op, line, right))?;
        Ok((expr, rest))
    }

    /// The operators of a level with their right operands behind a left operand, with it.
    #[cycle(level)]
    #[tactic(auto, unfolding(crate::specs::Reading::grown_from))]
    fn operations<'t>(
        &self,
        level: u8,
        left: Boxed<Expr>,
        tokens: &'t [Token],
    ) -> Read<'t, Boxed<Expr>>
        requires { Leads E.Fn D.Fn self.now.expr self.now.declarator self.now.src.now self.now.depth }
        ensures { Gives seen result (at_depth parts.operations self.now.src.now self.now.depth level left tokens.now) }
    {
        let mut left = left;
        let mut rest = tokens;
        for _turn in 0..tokens.len() {
            if !begins_in(binary_operators(level), rest) {
                break;
            }
            let (longer, more) = self.operation(level, left, rest)?;
            left = longer;
            rest = more;
        }
        Ok((left, rest))
    }

    /// The operators of the levels below a number behind a left operand, with it, one level after the other.
    #[cycle(level)]
    #[tactic(auto, using(crate::proofs::Ladder::ladder_ends), unfolding(crate::specs::Parts::ladder))]
    fn ladder<'t>(
        &self,
        levels: u8,
        left: Boxed<Expr>,
        tokens: &'t [Token],
    ) -> Read<'t, Boxed<Expr>>
        requires { Leads E.Fn D.Fn self.now.expr self.now.declarator self.now.src.now self.now.depth }
        ensures { Gives seen result (at_depth parts.ladder self.now.src.now self.now.depth levels 0 left tokens.now) }
    {
        let mut left = left;
        let mut rest = tokens;
        for level in 0..levels {
            if !may_go_on(rest) {
                return Ok((left, rest));
            }
            let (longer, more) = self.operations(level, left, rest)?;
            left = longer;
            rest = more;
        }
        Ok((left, rest))
    }

    /// An operand, and behind it the operators of the levels below a number with their right operands.
    #[cycle(level)]
    #[tactic(auto, using(crate::proofs::Ladder::ends_here))]
    fn climbed<'t>(&self, levels: u8, tokens: &'t [Token]) -> Read<'t, Boxed<Expr>>
        requires { Leads E.Fn D.Fn self.now.expr self.now.declarator self.now.src.now self.now.depth }
        ensures { Gives seen result (at_depth parts.climbed self.now.src.now self.now.depth levels tokens.now) }
    {
        let (first, rest) = self.cast(tokens)?;
        if !may_go_on(rest) {
            return Ok((first, rest));
        }
        let (expr, rest) = self.ladder(levels, first, rest)?;
        Ok((expr, rest))
    }

    /// Operands with the operators of the levels below a number between them (C11 6.5.5 to 6.5.14).
    #[cycle(level)]
    fn level<'t>(&self, levels: u8, tokens: &'t [Token]) -> Read<'t, Boxed<Expr>>
        requires { Leads E.Fn D.Fn self.now.expr self.now.declarator self.now.src.now self.now.depth }
        ensures { Gives seen result (at_depth reading.level self.now.src.now self.now.depth levels tokens.now) }
    {
        self.climbed(levels, tokens)
    }

    /// `?` and both branches behind a condition.
    #[tactic(auto, unfolding(crate::specs::Reading::branches))]
    fn branches<'t>(&self, condition: Boxed<Expr>, tokens: &'t [Token]) -> Read<'t, Boxed<Expr>>
        requires { Leads E.Fn D.Fn self.now.expr self.now.declarator self.now.src.now self.now.depth }
        ensures { Gives seen result (parts.applied (at_depth reading.branches self.now.src.now self.now.depth) condition tokens.now) }
    {
        let (question, rest) = one(QUESTION, tokens)?;
        let (first, rest) = (self.expr)(Start::Expression, rest)?;
        let (_colon, rest) = one(COLON, rest)?;
        let (second, rest) = (self.expr)(Start::Conditional, rest)?;
        let at = line_of(&condition);
        let node = ExprNode::Conditional(condition, question.line, first, second);
        let expr = at_line(self.alloc, at, node)?;
        Ok((expr, rest))
    }

    /// C11 6.5.15
    #[tactic(auto, unfolding(crate::specs::Reading::conditional))]
    pub fn conditional<'t>(&self, tokens: &'t [Token]) -> Read<'t, Boxed<Expr>>
        requires { Leads E.Fn D.Fn self.now.expr self.now.declarator self.now.src.now self.now.depth }
        ensures { Gives seen result (at_depth reading.conditional self.now.src.now self.now.depth tokens.now) }
    {
        let (condition, rest) = self.level(LEVELS, tokens)?;
        if begins(&[QUESTION], rest) {
            self.branches(condition, rest)
        } else {
            Ok((condition, rest))
        }
    }

    /// An assignment operator and the right side behind a left side.
    #[tactic(auto, unfolding(crate::specs::Reading::assigned))]
    fn assigned<'t>(&self, left: Boxed<Expr>, tokens: &'t [Token]) -> Read<'t, Boxed<Expr>>
        requires { Leads E.Fn D.Fn self.now.expr self.now.declarator self.now.src.now self.now.depth }
        ensures { Gives seen result (at_depth reading.assigned self.now.src.now self.now.depth left tokens.now) }
    {
        let ((line, op), rest) = sign(&ASSIGNMENT_OPERATORS, tokens)?;
        let (right, rest) = (self.expr)(Start::Assignment, rest)?;
        let at = line_of(&left);
        let expr = at_line(self.alloc, at, ExprNode::Assign(left, op, line, right))?;
        Ok((expr, rest))
    }

    /// C11 6.5.16
    #[tactic(auto, unfolding(crate::specs::Reading::assignment))]
    pub fn assignment<'t>(&self, tokens: &'t [Token]) -> Read<'t, Boxed<Expr>>
        requires { Leads E.Fn D.Fn self.now.expr self.now.declarator self.now.src.now self.now.depth }
        ensures { Gives seen result (at_depth reading.assignment self.now.src.now self.now.depth tokens.now) }
    {
        let (left, rest) = self.conditional(tokens)?;
        if is_unary(left.get()) && begins_in(&ASSIGNMENT_OPERATORS, rest) {
            self.assigned(left, rest)
        } else {
            Ok((left, rest))
        }
    }

    /// An operand behind a comma.
    fn next_operand<'t>(&self, tokens: &'t [Token]) -> Read<'t, Boxed<Expr>>
        requires { Leads E.Fn D.Fn self.now.expr self.now.declarator self.now.src.now self.now.depth }
        ensures { Gives seen result (reading.behind_comma (at_depth reading.assignment self.now.src.now self.now.depth) tokens.now) }
    {
        let (_comma, rest) = one(COMMA, tokens)?;
        let (operand, rest) = self.assignment(rest)?;
        Ok((operand, rest))
    }

    /// A first operand with all that stand behind commas behind it: those in front of the last, and the last.
    #[tactic(auto, unfolding(crate::specs::Reading::grown_from))]
    fn operands<'t>(
        &self,
        first: Boxed<Expr>,
        tokens: &'t [Token],
    ) -> Read<'t, (Items<Boxed<Expr>>, Boxed<Expr>)>
        requires { Leads E.Fn D.Fn self.now.expr self.now.declarator self.now.src.now self.now.depth }
        ensures { Gives seen result (at_depth parts.operands self.now.src.now self.now.depth first tokens.now) }
    {
        let mut dropped = Items::new(self.alloc);
        let mut last = first;
        let mut rest = tokens;
        for _turn in 0..tokens.len() {
            if !begins(&[COMMA], rest) {
                break;
            }
            let (next, more) = self.next_operand(rest)?;
            dropped.push(last)?;
            last = next;
            rest = more;
        }
        Ok(((dropped, last), rest))
    }

    /// C11 6.5.17
    #[tactic(auto, unfolding(crate::specs::Reading::expression))]
    pub fn expression<'t>(&self, tokens: &'t [Token]) -> Read<'t, Boxed<Expr>>
        requires { Leads E.Fn D.Fn self.now.expr self.now.declarator self.now.src.now self.now.depth }
        ensures { Gives seen result (at_depth reading.expression self.now.src.now self.now.depth tokens.now) }
    {
        let (first, rest) = self.assignment(tokens)?;
        let ((dropped, last), rest) = self.operands(first, rest)?;
        let expr = comma_node(self.alloc, dropped, last)?;
        Ok((expr, rest))
    }

    /// The line of the grammar at which reading begins.
    pub fn expr_line<'t>(&self, start: Start, tokens: &'t [Token]) -> Read<'t, Boxed<Expr>>
        requires { Leads E.Fn D.Fn self.now.expr self.now.declarator self.now.src.now self.now.depth }
        ensures { Gives seen result (at_depth reading.expr_line self.now.src.now self.now.depth start tokens.now) }
    {
        match start {
            Start::Expression => self.expression(tokens),
            Start::Assignment => self.assignment(tokens),
            Start::Conditional => self.conditional(tokens),
            Start::Cast => self.cast(tokens),
            Start::Unary => self.unary(tokens),
        }
    }
}
