ghost use Rattle.std.specs.Prelude.{map, ◌∷◌, []};
ghost use Rattle.c_types.specs.Table.{StandsFor};
ghost use Rattle.c_tree.specs.declared.expression.Suffix.TheVariants as suffix;
ghost use Rattle.typing_rules.specs.SourceViews.{expr_view, exprs_from, type_name_view, declarator_view, declarator_of, suffix_view, direct_view};
ghost use Rattle.typing_rules.specs.Ordered.{term_of, all_of as all_in_order, type_named as type_of_name, derivations_of, parameters_of};
ghost use Rattle.typing_rules.specs.OrderedParts.{parameter_list as list_of};
ghost use Rattle.typing_rules.specs.OrderedDeclarations.{value_of as valued};
ghost use Rattle.c_values.specs.Stand.{MeansWritten};
ghost use Rattle.c_values.specs.Answers.{MeansTerm};
ghost use Rattle.c_known.specs.Views.{line_in as told_line};
ghost use Rattle.c_known.specs.Gives.{Gives};
ghost use Rattle.c_declarators.specs.Derivations.{lines_view};
ghost use Rattle.c_terms.specs.Parts.{AreParts};
ghost use Rattle.c_terms.specs.Fronts.{AreAll, AddsParts, AddsParameters};
ghost use Rattle.c_known.specs.Standing.{MeanVec};
ghost use Rattle.c_declarators.specs.Trees.{declarator_if, parameter_in, parameters_in};

use crate::kinds::{add, add_pointers, base_of, begin_list, length_of};
use crate::nodes::{
    binary, called, cast_to, chosen, indexed, number, sequence_of, sized_term, sized_type,
    target_of, written,
};
use crate::steps::{assignment, call_of, postfix, prefix};
use c_declarators::{Derivation, Lines, derived, is_empty_list, lines_if, parameter};
use c_known::{File, Known, Local, line_in};
use c_tree::{Declarator, Direct, Expr, ExprNode, Parameter, Suffix, TypeName};
use c_types::QualifiedRef;
use c_values::{Term, Written};
use sqlite_items::{Boxed, Items};
use srmt_base::Ty;
use typing_rules::TypeRefusal;

/// What an expression is before an array or a function decays (C11 6.5).
#[cycle(expression)]
pub fn term(known: &mut Known, file: File, e: &Expr) -> Result<Term, TypeRefusal>
    ensures { Gives MeansTerm known.old known.new result (term_of (expr_view (told_line file) e.now)) }
{
    let line = line_in(file, e.line);
    match &e.node {
        ExprNode::Name(bytes) => known.named(line, bytes.as_slice()),
        ExprNode::Number(ty, n) => number(known, line, *ty, *n),
        ExprNode::Character(n) => number(known, line, Ty::Int, *n),
        ExprNode::Text(bytes) => known.text_term(line, bytes),
        ExprNode::Parenthesized(x) => term(known, file, x.get()),
        ExprNode::Index(x, at, y) => {
            let a = value_of(known, file, x.get())?;
            let b = value_of(known, file, y.get())?;
            indexed(known, line, line_in(file, *at), a, b)
        }
        ExprNode::Call(f, at, es) => {
            let callee = term(known, file, f.get())?;
            let function = called(known, callee)?;
            let arguments = all_of(known, file, es)?;
            call_of(known, line, line_in(file, *at), function, arguments)
        }
        ExprNode::Postfix(x, op, at) => {
            let operand = term(known, file, x.get())?;
            let first = line_in(file, x.get().line);
            postfix(known, *op, line, line_in(file, *at), first, operand)
        }
        ExprNode::Prefix(op, x) => {
            let operand = term(known, file, x.get())?;
            prefix(known, *op, line, line_in(file, x.get().line), operand)
        }
        ExprNode::SizeofExpr(x) => {
            let operand = term(known, file, x.get())?;
            sized_term(known, line, operand)
        }
        ExprNode::SizeofType(t) => {
            let ty = type_named(known, file, t.get())?;
            sized_type(known, line, ty)
        }
        ExprNode::Cast(t, x) => {
            let ty = type_named(known, file, t.get())?;
            let a = value_of(known, file, x.get())?;
            cast_to(known, line, ty, a)
        }
        ExprNode::Binary(x, op, at, y) => {
            let a = value_of(known, file, x.get())?;
            let b = value_of(known, file, y.get())?;
            binary(known, *op, line, line_in(file, *at), a, b)
        }
        ExprNode::Conditional(x, at, y, z) => {
            let test = value_of(known, file, x.get())?;
            let a = value_of(known, file, y.get())?;
            let b = value_of(known, file, z.get())?;
            chosen(known, line, line_in(file, *at), test, a, b)
        }
        ExprNode::Assign(x, op, at, y) => {
            let left = term(known, file, x.get())?;
            let target = target_of(known, left)?;
            let a = value_of(known, file, y.get())?;
            let first = line_in(file, x.get().line);
            assignment(known, *op, line, first, line_in(file, *at), target, a)
        }
        ExprNode::Comma(es, y) => {
            let dropped = all_of(known, file, es)?;
            let last = value_of(known, file, y.get())?;
            sequence_of(known, line, dropped, last)
        }
    }
}

/// The value of an expression (C11 6.3.2.1).
#[cycle(expression)]
pub fn value_of(known: &mut Known, file: File, e: &Expr) -> Result<Written, TypeRefusal>
    ensures { Gives MeansWritten known.old known.new result (valued (expr_view (told_line file) e.now)) }
{
    let found = term(known, file, e)?;
    written(known, line_in(file, e.line), found)
}

/// The values of expressions, from the left.
#[cycle(expression)]
fn all_of(
    known: &mut Known,
    file: File,
    es: &Items<Boxed<Expr>>,
) -> Result<Vec<Written>, TypeRefusal>
    ensures { Gives AreAll known.old known.new result (all_in_order (exprs_from (map (expr_view (told_line file)) es.now))) }
{
    let mut values = Vec::new(known.alloc);
    for e in es.as_slice() {
        let value = value_of(known, file, e.get())?;
        add(&mut values, value)?;
    }
    Ok(values)
}

/// The type that is named (C11 6.7.7).
#[cycle(expression)]
pub fn type_named(known: &mut Known, file: File, t: &TypeName) -> Result<QualifiedRef, TypeRefusal>
    ensures { Gives StandsFor known.old known.new result (type_of_name (type_name_view (told_line file) t.now)) }
{
    let base = base_of(known, file, t.line, t.specifiers.as_slice())?;
    let lines = lines_if(file, t.line, &t.declarator);
    let ds = parts_if(known, file, lines, t.line, &t.declarator)?;
    derived(known, lines, base, ds.as_slice())
}

/// All parts of a declarator that may be missing behind specifiers on a line.
#[cycle(expression)]
fn parts_if(
    known: &mut Known,
    file: File,
    lines: Lines,
    line: u32,
    d: &Option<Boxed<Declarator>>,
) -> Result<Vec<Derivation>, TypeRefusal>
    ensures { Gives AreParts known.old known.new result (derivations_of (lines_view lines) (declarator_if file line d.now)) }
{
    match d {
        None => Ok(Vec::new(known.alloc)),
        Some(d) => derivations(known, file, lines, d.get()),
    }
}

/// All parts of a declarator, from the name outward (C11 6.7.6).
#[cycle(expression)]
pub fn derivations(
    known: &mut Known,
    file: File,
    lines: Lines,
    d: &Declarator,
) -> Result<Vec<Derivation>, TypeRefusal>
    ensures { Gives AreParts known.old known.new result
        (derivations_of (lines_view lines) (declarator_of (declarator_view (told_line file) d.now))) }
{
    let mut parts = Vec::new(known.alloc);
    add_parts(known, file, lines, d, &mut parts)?;
    Ok(parts)
}

/// Adds the parts of a declarator behind others.
#[cycle(expression)]
fn add_parts(
    known: &mut Known,
    file: File,
    lines: Lines,
    d: &Declarator,
    parts: &mut Vec<Derivation>,
) -> Result<(), TypeRefusal>
    ensures { AddsParts known.old known.new lines parts.old.items parts.new.items result (declarator_view (told_line file) d.now).parts }
{
    add_direct(known, file, lines, &d.direct, parts)?;
    for suffix in d.suffixes.as_slice() {
        add_suffix(known, file, lines, suffix, parts)?;
    }
    add_pointers(known, lines, d.pointers.as_slice(), parts)
}

/// Adds what stands in parentheses in the middle of a declarator.
#[cycle(expression)]
fn add_direct(
    known: &mut Known,
    file: File,
    lines: Lines,
    direct: &Direct,
    parts: &mut Vec<Derivation>,
) -> Result<(), TypeRefusal>
    ensures { AddsParts known.old known.new lines parts.old.items parts.new.items result (direct_view (told_line file) direct.now).parts }
{
    match direct {
        Direct::Name(_) => Ok(()),
        Direct::Nested(d) => add_parts(known, file, lines, d.get(), parts),
        Direct::Unnamed => Ok(()),
    }
}

/// Adds an array or a function.
#[cycle(expression)]
fn add_suffix(
    known: &mut Known,
    file: File,
    lines: Lines,
    behind: &Suffix,
    parts: &mut Vec<Derivation>,
) -> Result<(), TypeRefusal>
    ensures { AddsParts known.old known.new lines parts.old.items parts.new.items result (suffix_view (told_line file) behind.now) }
{
    match behind {
        Suffix::Array(_, length) => add_array(known, file, lines, length, parts),
        Suffix::Function(_, ps) => {
            let found = parameter_list(known, file, ps)?;
            add(parts, Derivation::Function(found))
        }
    }
}

/// Adds an array, with its length if it has one (C11 6.7.6.2).
#[cycle(expression)]
fn add_array(
    known: &mut Known,
    file: File,
    lines: Lines,
    length: &Option<Boxed<Expr>>,
    parts: &mut Vec<Derivation>,
) -> Result<(), TypeRefusal>
    ensures { (line : _) → AddsParts known.old known.new lines parts.old.items parts.new.items result
        (suffix_view (told_line file) (suffix.Array line length.now)) }
{
    match length {
        None => add(parts, Derivation::Array(None)),
        Some(e) => {
            let value = value_of(known, file, e.get())?;
            let cells = length_of(known, lines, &value)?;
            add(parts, Derivation::Array(Some(cells)))
        }
    }
}

/// The locals of a list of parameters (C11 6.7.6.3).
#[cycle(expression)]
fn parameter_list(
    known: &mut Known,
    file: File,
    ps: &Items<Parameter>,
) -> Result<Vec<Local>, TypeRefusal>
    ensures { Gives MeanVec known.old known.new result (list_of (parameters_in file ps.now) (parameters_of (parameters_in file ps.now))) }
{
    if is_empty_list(file, ps.as_slice()) {
        return Ok(Vec::new(known.alloc));
    }
    let before = begin_list(known)?;
    add_parameters(known, file, ps)?;
    known.end_parameters(before)
}

/// Each parameter of a list becomes known, in its turn.
#[cycle(expression)]
fn add_parameters(known: &mut Known, file: File, ps: &Items<Parameter>) -> Result<(), TypeRefusal>
    ensures { AddsParameters known.old known.new result (map (parameter_in file) ps.now) }
{
    for p in ps.as_slice() {
        add_parameter(known, file, p)?;
    }
    Ok(())
}

/// A parameter becomes known.
#[cycle(expression)]
fn add_parameter(known: &mut Known, file: File, p: &Parameter) -> Result<(), TypeRefusal>
    ensures { AddsParameters known.old known.new result (parameter_in file p.now ∷ []) }
{
    let base = base_of(known, file, p.line, p.specifiers.as_slice())?;
    let lines = lines_if(file, p.line, &p.declarator);
    let ds = parts_if(known, file, lines, p.line, &p.declarator)?;
    parameter(known, file, p, base, ds.as_slice())
}
