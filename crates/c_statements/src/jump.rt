ghost use Rattle.std.specs.Prelude.{option_map};
ghost use Rattle.c_types.specs.Types.{CType};
ghost use Rattle.c_types.specs.Table.{Stands};
ghost use Rattle.typing_rules.specs.Terms as terms;
ghost use Rattle.typing_rules.specs.SourceUnits.{return, continue, break};
ghost use Rattle.typing_rules.specs.SourceViews.{expr_view};
ghost use Rattle.typing_rules.specs.OrderedStatements as ordered;
ghost use Rattle.c_values.specs.Stand.{MeansWritten};
ghost use Rattle.c_known.specs.declared.known.Known.{Known as Known'};
ghost use Rattle.c_known.specs.Views.{line_in as told_line};
ghost use Rattle.c_known.specs.Gives.{Gives};
ghost use Rattle.c_statements.specs.Steps.{returned_value};
ghost use Rattle.c_statements.specs.Parts.{MeansValueIf, IsNode};

use crate::within::Within;
use c_known::Known;
use c_terms::value_of;
use c_tree::Expr;
use c_typed::{StmtNode, Value};
use c_types::TypeRef;
use c_values::{Written, converted_to};
use typing_rules::TypeRefusal;

/// The value that a function with a result type returns (C11 6.8.6.4p1).
fn returned_value(
    known: &mut Known,
    line: u32,
    returns: TypeRef,
    operand: Written,
) -> Result<Option<Value>, TypeRefusal>
    ensures { (t : CType) (w : terms.Written) → Stands known.old.types returns t → MeansWritten known.old.types operand w
        → Gives MeansValueIf known.old known.new result (returned_value line t w) }
{
    if known.types.is_void(returns) {
        Err(TypeRefusal::Mismatch(line, 19))
    } else {
        let value = converted_to(known.alloc, &known.types, line, returns, operand)?;
        Ok(Some(value.value.into_inner()))
    }
}

/// What a function with a result type returns, if anything.
fn returned(
    known: &mut Known,
    at: Within,
    line: u32,
    e: &Option<Expr>,
) -> Result<Option<Value>, TypeRefusal>
    ensures { (t : CType) → Stands known.old.types at.returns t
        → Gives MeansValueIf known.old known.new result (ordered.returned line t (option_map (expr_view (told_line at.file)) e.now)) }
{
    match e {
        None => {
            if known.types.is_void(at.returns) {
                Ok(None)
            } else {
                Err(TypeRefusal::Mismatch(line, 19))
            }
        }
        Some(e) => {
            let operand = value_of(known, at.file, e)?;
            returned_value(known, line, at.returns, operand)
        }
    }
}

/// `return` (C11 6.8.6.4).
pub(crate) fn return_node(
    known: &mut Known,
    at: Within,
    line: u32,
    e: &Option<Expr>,
) -> Result<StmtNode, TypeRefusal>
    ensures { (t : CType) → Stands known.old.types at.returns t
        → Gives (IsNode line) known.old known.new result (ordered.stmt_of t at.in_loop (return line (option_map (expr_view (told_line at.file)) e.now))) }
{
    Ok(StmtNode::Return(returned(known, at, line, e)?))
}

/// `continue` (C11 6.8.6.2).
pub(crate) fn continue_node(in_loop: bool, line: u32) -> Result<StmtNode, TypeRefusal>
    ensures { (s : Known') (t : CType) → Gives (IsNode line) s s result (ordered.stmt_of t in_loop (continue line)) }
{
    if in_loop {
        Ok(StmtNode::Continue)
    } else {
        Err(TypeRefusal::Mismatch(line, 18))
    }
}

/// `break` (C11 6.8.6.3).
pub(crate) fn break_node(in_loop: bool, line: u32) -> Result<StmtNode, TypeRefusal>
    ensures { (s : Known') (t : CType) → Gives (IsNode line) s s result (ordered.stmt_of t in_loop (break line)) }
{
    if in_loop {
        Ok(StmtNode::Break)
    } else {
        Err(TypeRefusal::Mismatch(line, 18))
    }
}
