use crate::locals::Locals;
use c_typed::{BlockItem, Cell, Function, LocalItem, Place, Stmt, Value};
use sqlite_items::Boxed;
use srmt_base::Part;

/// The function that runs.
#[derive(Clone, Copy)]
pub(crate) struct Current<'p> {
    pub(crate) part: Part,
    pub(crate) function: &'p Function,
}

/// What is to be done with a value.
#[derive(Clone, Copy)]
pub(crate) enum ValueWork {
    /// It is to be evaluated.
    Evaluate,
    /// It is `&&`, `||` or `?:`, and its first operand is on the stack.
    Decide,
    /// All its operands are on the stack.
    Finish,
}

/// What is to be done with values in order.
#[derive(Clone, Copy)]
pub(crate) enum ValuesWork {
    /// They are evaluated, and stay.
    Evaluate,
    /// They are evaluated and dropped.
    Drop,
}

/// What is to be done with a place.
#[derive(Clone, Copy)]
pub(crate) enum PlaceWork {
    /// Its address is to be found: 0 for a local in a register.
    Locate,
    /// The operands of which its address is made are on the stack.
    Point,
    /// What it holds takes the place of its address on the stack.
    Hold,
    /// What it holds goes onto the stack above its address.
    HoldAbove,
}

/// What is to be done with a statement.
#[derive(Clone, Copy)]
pub(crate) enum StmtWork {
    Execute,
    /// It is an `if`, and its test is on the stack.
    Choose,
    /// It is a loop at its top.
    Top,
    /// It is a loop, and its test, before its body, is on the stack.
    Tested,
    /// It is a loop whose body is left.
    AfterBody,
    /// It is a `do`, and its test is on the stack.
    Again,
}

/// What is to be done with the rest of a block.
#[derive(Clone, Copy)]
pub(crate) enum ItemsWork {
    Execute,
    /// The locals that it declares end.
    End,
}

/// What is to be done with the locals of a declaration.
#[derive(Clone, Copy)]
pub(crate) enum LocalsWork {
    /// They take their first values.
    Initialize,
    /// They end, with the `for` that they belong to.
    End,
}

/// A piece of pending work. Values stand on a stack of their own.
#[derive(Drop)]
pub(crate) enum Task<'p> {
    Value(ValueWork, &'p Value),
    Values(ValuesWork, &'p [Boxed<Value>]),
    Place(PlaceWork, &'p Place),
    /// The last value is dropped.
    Forget,
    Stmt(StmtWork, &'p Stmt),
    Items(ItemsWork, &'p [BlockItem]),
    Locals(LocalsWork, &'p [LocalItem]),
    /// A local takes the value on the stack, above its address.
    Give(u32),
    /// Cells of a local take their values.
    Cells(u32, &'p [Cell]),
    /// A cell of a local, by its index, takes the value on the stack, above the local's address.
    Cell(u32, u32),
    /// The value of a `return` is on the stack.
    Answer,
    /// A function is left for its caller, with the caller's locals.
    Leave(Current<'p>, Locals),
}
