//! Declarations, statements and units as text.

use super::{DEEPEST, Printer};
use c_tree::{
    Block, BlockItem, Declaration, Expr, External, ForHead, ForStart, Initializer, Item, Stmt,
    StmtNode, Unit,
};
use sqlite_items::Boxed;
use std::alloc::AllocError;

impl Printer {
    fn initializer(&mut self, deepest: usize, initializer: &Initializer) -> Result<(), AllocError> {
        if deepest == 0 {
            return self.word(" ..");
        }
        match initializer {
            Initializer::Value(value) => self.expr(DEEPEST, value.get()),
            Initializer::List(line, inner) => {
                self.word(" ")?;
                self.line(*line, ":(List")?;
                for initializer in inner.as_slice() {
                    self.initializer(deepest - 1, initializer)?;
                }
                self.word(")")
            }
        }
    }

    fn item(&mut self, item: &Item) -> Result<(), AllocError> {
        self.word(" (Item")?;
        self.declarator(DEEPEST, &item.declarator)?;
        if let Some(initializer) = &item.initializer {
            self.initializer(DEEPEST, initializer)?;
        }
        self.word(")")
    }

    fn declaration(&mut self, declaration: &Declaration) -> Result<(), AllocError> {
        self.word(" ")?;
        self.line(declaration.line, ":(Declaration")?;
        self.specifiers(declaration.specifiers.as_slice())?;
        for item in declaration.items.as_slice() {
            self.item(item)?;
        }
        self.word(")")
    }

    fn optional(&mut self, expr: &Option<Boxed<Expr>>) -> Result<(), AllocError> {
        match expr {
            None => self.word(" -"),
            Some(expr) => self.expr(DEEPEST, expr.get()),
        }
    }

    fn head(&mut self, head: &ForHead) -> Result<(), AllocError> {
        match &head.start {
            ForStart::Declaration(declaration) => self.declaration(declaration.get())?,
            ForStart::Expr(expr) => self.optional(expr)?,
        }
        self.optional(&head.condition)?;
        self.optional(&head.step)
    }

    #[cycle(statement)]
    fn stmt(&mut self, deepest: usize, stmt: &Stmt) -> Result<(), AllocError> {
        if deepest == 0 {
            return self.word(" ..");
        }
        self.word(" ")?;
        self.line(stmt.line, ":(")?;
        self.stmt_node(deepest - 1, &stmt.node)?;
        self.word(")")
    }

    #[cycle(statement)]
    fn stmt_node(&mut self, deepest: usize, node: &StmtNode) -> Result<(), AllocError> {
        if deepest == 0 {
            return self.word(" ..");
        }
        match node {
            StmtNode::Empty => self.word("Empty"),
            StmtNode::Continue => self.word("Continue"),
            StmtNode::Break => self.word("Break"),
            StmtNode::Return(None) => self.word("Return"),
            StmtNode::Return(Some(value)) => {
                self.word("Return")?;
                self.expr(DEEPEST, value)
            }
            StmtNode::Expr(expr) => {
                self.word("Expr")?;
                self.expr(DEEPEST, expr)
            }
            other => self.compound(deepest - 1, other),
        }
    }

    /// A statement that has statements in it.
    #[cycle(statement)]
    fn compound(&mut self, deepest: usize, node: &StmtNode) -> Result<(), AllocError> {
        if deepest == 0 {
            return self.word(" ..");
        }
        let below = deepest - 1;
        match node {
            StmtNode::Block(block) => self.block(below, block.get()),
            StmtNode::If(condition, first, second) => {
                self.word("If")?;
                self.expr(DEEPEST, condition)?;
                self.stmt(below, first.get())?;
                match second {
                    None => Ok(()),
                    Some(second) => self.stmt(below, second.get()),
                }
            }
            StmtNode::While(condition, body) => {
                self.word("While")?;
                self.expr(DEEPEST, condition)?;
                self.stmt(below, body.get())
            }
            StmtNode::Do(body, condition) => {
                self.word("Do")?;
                self.stmt(below, body.get())?;
                self.expr(DEEPEST, condition)
            }
            StmtNode::For(head, body) => {
                self.word("For")?;
                self.head(head)?;
                self.stmt(below, body.get())
            }
            _ => Ok(()),
        }
    }

    #[cycle(statement)]
    fn block(&mut self, deepest: usize, block: &Block) -> Result<(), AllocError> {
        if deepest == 0 {
            return self.word(" ..");
        }
        self.line(block.line, ":(Block")?;
        for item in block.items.as_slice() {
            match item {
                BlockItem::Declaration(declaration) => self.declaration(declaration)?,
                BlockItem::Statement(stmt) => self.stmt(deepest - 1, stmt)?,
            }
        }
        self.word(" ")?;
        self.line(block.end, ")")
    }

    /// A whole unit.
    pub fn unit(&mut self, unit: &Unit) -> Result<(), AllocError> {
        self.word("(Unit")?;
        for external in unit.externals.as_slice() {
            match external {
                External::Function(function) => {
                    let function = function.get();
                    self.word(" ")?;
                    self.line(function.line, ":(FunctionDefinition")?;
                    self.specifiers(function.specifiers.as_slice())?;
                    self.declarator(DEEPEST, &function.declarator)?;
                    self.word(" ")?;
                    self.block(DEEPEST, &function.body)?;
                    self.word(")")?;
                }
                External::Declaration(declaration) => self.declaration(declaration.get())?,
            }
        }
        self.word(")")
    }
}
