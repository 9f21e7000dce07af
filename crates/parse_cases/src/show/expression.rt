//! Expressions, declarators and names of types as text.

use super::Printer;
use c_tree::{Declarator, Direct, Expr, ExprNode, Parameter, Pointer, Specifier, Suffix, TypeName};
use sqlite_items::Boxed;
use std::alloc::AllocError;

impl Printer {
    pub fn specifiers(&mut self, specifiers: &[Specifier]) -> Result<(), AllocError> {
        self.word(" [")?;
        for specifier in specifiers {
            let word = format!(in self.alloc; " {}:{:?}", specifier.line, specifier.word)?;
            self.word(word.as_str())?;
        }
        self.word(" ]")
    }

    fn pointers(&mut self, pointers: &[Pointer]) -> Result<(), AllocError> {
        self.word(" [")?;
        for pointer in pointers {
            self.word(" ")?;
            self.line(pointer.line, ":*")?;
            self.word(if pointer.is_const { " const" } else { "" })?;
            self.word(if pointer.is_volatile { " volatile" } else { "" })?;
        }
        self.word(" ]")
    }

    /// A leaf, or an expression with one or more operands behind its name.
    #[cycle(expression)]
    pub fn expr(&mut self, deepest: usize, expr: &Expr) -> Result<(), AllocError> {
        if deepest == 0 {
            return self.word(" ..");
        }
        self.word(" ")?;
        self.line(expr.line, ":(")?;
        self.node(deepest - 1, &expr.node)?;
        self.word(")")
    }

    #[cycle(expression)]
    fn exprs(&mut self, deepest: usize, exprs: &[Boxed<Expr>]) -> Result<(), AllocError> {
        if deepest == 0 {
            return self.word(" ..");
        }
        self.word(" [")?;
        for expr in exprs {
            self.expr(deepest - 1, expr.get())?;
        }
        self.word(" ]")
    }

    /// A constant, a name or a text, or what has several parts.
    #[cycle(expression)]
    fn node(&mut self, deepest: usize, node: &ExprNode) -> Result<(), AllocError> {
        if deepest == 0 {
            return self.word(" ..");
        }
        match node {
            ExprNode::Name(name) => {
                self.word("Name ")?;
                self.bytes(name.as_slice())
            }
            ExprNode::Number(ty, value) => {
                let number = format!(in self.alloc; "Number {ty:?} {value}")?;
                self.word(number.as_str())
            }
            ExprNode::Character(value) => {
                let character = format!(in self.alloc; "Character {value}")?;
                self.word(character.as_str())
            }
            ExprNode::Text(bytes) => {
                self.word("Text ")?;
                self.bytes(bytes.as_slice())
            }
            other => self.operation(deepest - 1, other),
        }
    }

    /// What stands behind or before one operand.
    #[cycle(expression)]
    fn operation(&mut self, deepest: usize, node: &ExprNode) -> Result<(), AllocError> {
        if deepest == 0 {
            return self.word(" ..");
        }
        let below = deepest - 1;
        match node {
            ExprNode::Parenthesized(inner) => {
                self.word("Parenthesized")?;
                self.expr(below, inner.get())
            }
            ExprNode::Prefix(op, operand) => {
                let op = format!(in self.alloc; "Prefix {op:?}")?;
                self.word(op.as_str())?;
                self.expr(below, operand.get())
            }
            ExprNode::Postfix(operand, op, line) => {
                let op = format!(in self.alloc; "Postfix {op:?} {line}")?;
                self.word(op.as_str())?;
                self.expr(below, operand.get())
            }
            ExprNode::SizeofExpr(operand) => {
                self.word("SizeofExpr")?;
                self.expr(below, operand.get())
            }
            ExprNode::SizeofType(ty) => {
                self.word("SizeofType")?;
                self.type_name(below, ty.get())
            }
            ExprNode::Cast(ty, operand) => {
                self.word("Cast")?;
                self.type_name(below, ty.get())?;
                self.expr(below, operand.get())
            }
            other => self.operands(below, other),
        }
    }

    /// What has several operands.
    #[cycle(expression)]
    fn operands(&mut self, deepest: usize, node: &ExprNode) -> Result<(), AllocError> {
        if deepest == 0 {
            return self.word(" ..");
        }
        let below = deepest - 1;
        match node {
            ExprNode::Index(array, line, index) => {
                self.word("Index ")?;
                self.line(*line, "")?;
                self.expr(below, array.get())?;
                self.expr(below, index.get())
            }
            ExprNode::Call(called, line, arguments) => {
                self.word("Call ")?;
                self.line(*line, "")?;
                self.expr(below, called.get())?;
                self.exprs(below, arguments.as_slice())
            }
            ExprNode::Binary(left, op, line, right) => {
                let op = format!(in self.alloc; "Binary {op:?} {line}")?;
                self.word(op.as_str())?;
                self.expr(below, left.get())?;
                self.expr(below, right.get())
            }
            ExprNode::Assign(left, op, line, right) => {
                let op = format!(in self.alloc; "Assign {op:?} {line}")?;
                self.word(op.as_str())?;
                self.expr(below, left.get())?;
                self.expr(below, right.get())
            }
            ExprNode::Conditional(condition, line, first, second) => {
                self.word("Conditional ")?;
                self.line(*line, "")?;
                self.expr(below, condition.get())?;
                self.expr(below, first.get())?;
                self.expr(below, second.get())
            }
            ExprNode::Comma(dropped, last) => {
                self.word("Comma")?;
                self.exprs(below, dropped.as_slice())?;
                self.expr(below, last.get())
            }
            _ => Ok(()),
        }
    }

    #[cycle(expression)]
    fn type_name(&mut self, deepest: usize, ty: &TypeName) -> Result<(), AllocError> {
        if deepest == 0 {
            return self.word(" ..");
        }
        self.word(" ")?;
        self.line(ty.line, ":(TypeName")?;
        self.specifiers(ty.specifiers.as_slice())?;
        if let Some(declarator) = &ty.declarator {
            self.declarator(deepest - 1, declarator.get())?;
        }
        self.word(")")
    }

    #[cycle(expression)]
    pub fn declarator(
        &mut self,
        deepest: usize,
        declarator: &Declarator,
    ) -> Result<(), AllocError> {
        if deepest == 0 {
            return self.word(" ..");
        }
        self.word(" ")?;
        self.line(declarator.line, ":(Declarator")?;
        self.pointers(declarator.pointers.as_slice())?;
        match &declarator.direct {
            Direct::Name(name) => {
                self.word(" ")?;
                self.line(name.line, ":")?;
                self.bytes(name.bytes.as_slice())?;
            }
            Direct::Nested(inner) => self.declarator(deepest - 1, inner.get())?,
            Direct::Unnamed => self.word(" -")?,
        }
        self.suffixes(deepest - 1, declarator.suffixes.as_slice())?;
        self.word(")")
    }

    #[cycle(expression)]
    fn suffixes(&mut self, deepest: usize, suffixes: &[Suffix]) -> Result<(), AllocError> {
        if deepest == 0 {
            return self.word(" ..");
        }
        self.word(" [")?;
        for suffix in suffixes {
            self.suffix(deepest - 1, suffix)?;
        }
        self.word(" ]")
    }

    #[cycle(expression)]
    fn suffix(&mut self, deepest: usize, suffix: &Suffix) -> Result<(), AllocError> {
        if deepest == 0 {
            return self.word(" ..");
        }
        match suffix {
            Suffix::Array(line, None) => {
                self.word(" ")?;
                self.line(*line, ":(Array)")
            }
            Suffix::Array(line, Some(length)) => {
                self.word(" ")?;
                self.line(*line, ":(Array")?;
                self.expr(deepest - 1, length.get())?;
                self.word(")")
            }
            Suffix::Function(line, parameters) => {
                self.word(" ")?;
                self.line(*line, ":(Function")?;
                self.parameters(deepest - 1, parameters.as_slice())?;
                self.word(")")
            }
        }
    }

    #[cycle(expression)]
    fn parameters(&mut self, deepest: usize, parameters: &[Parameter]) -> Result<(), AllocError> {
        if deepest == 0 {
            return self.word(" ..");
        }
        for parameter in parameters {
            self.word(" ")?;
            self.line(parameter.line, ":(Parameter")?;
            self.specifiers(parameter.specifiers.as_slice())?;
            if let Some(declarator) = &parameter.declarator {
                self.declarator(deepest - 1, declarator.get())?;
            }
            self.word(")")?;
        }
        Ok(())
    }
}
