ghost use Rattle.std.specs.Prelude.{◌≡◌, ℕ, List, map};
ghost use Rattle.mid_code.specs.declared.mid.Mid.TheVariants as mid_of;
ghost use Rattle.mid_code.specs.Registers.{registers_list};
ghost use Rattle.c_types.specs.Types.{ty_of};
ghost use Rattle.c_typed.specs.Views.{value_view, place_view, values_from};
ghost use Rattle.lower.specs.Expressions.{value_of, address_of, location_of, values_in, dropped_in, decides, updated, repointed};
ghost use Rattle.lower.specs.Emits.{Emits, itself, nothing, rows_of, types_of, inside_view, located_view};

use crate::emitter::{Emitter, Located};
use crate::inside::{Inside, Where, behind, number_of, number_of_text};
use crate::operators::Moving;
use crate::refusal::LowerRefusal;
use c_typed::{IntegerChange, Place, PlaceNode, PointerChange, Value, ValueNode};
use c_types::TypeRef;
use mid_code::Registers;
use sqlite_items::{Boxed, Items};

/// The register of a value: the temporary `k`, or a new one where it is a pointer to an object.
#[cycle(value)]
pub(crate) fn value(
    at: Inside,
    out: &mut Emitter,
    value: &Value,
    k: usize,
) -> Result<u16, LowerRefusal>
    ensures { Emits itself (rows_of at.entry) out.old out.new result
        (value_of (inside_view at.entry) (value_view (types_of at.entry) value.now) k) }
{
    let line = value.line;
    match &value.node {
        ValueNode::Constant(number) => out.constant(u64::from(*number), k, line),
        ValueNode::Null => out.null(at, value.ty, k, line),
        ValueNode::Function(entity) => out.function_value(at.function_number(*entity)?, line, k),
        ValueNode::Read(place) => {
            let located = location(at, out, place.get(), k)?;
            out.fetch(at, line, value.ty, k, located)
        }
        ValueNode::FirstElement(place) => address(at, out, place.get(), k),
        ValueNode::Address(place) => address(at, out, place.get(), k),
        ValueNode::Minus(e) => {
            let operand = self::value(at, out, e.get(), k)?;
            out.minus(at.ty(e.get().ty), line, k, operand)
        }
        ValueNode::Complement(e) => {
            let operand = self::value(at, out, e.get(), k)?;
            out.complement(at.ty(e.get().ty), line, k, operand)
        }
        ValueNode::Negation(e) => {
            let operand = self::value(at, out, e.get(), k)?;
            out.negate(at, e.get().ty, line, k, operand)
        }
        ValueNode::Arithmetic(op, told, a, b) => {
            let left = self::value(at, out, a.get(), k)?;
            let right = self::value(at, out, b.get(), behind(k)?)?;
            out.compute(*op, at.ty(a.get().ty), *told, left, right)
        }
        ValueNode::Sum(told, is_less, pointer_first, a, b) => {
            let left = self::value(at, out, a.get(), k)?;
            let right = self::value(at, out, b.get(), at.free_behind(a.get().ty, k)?)?;
            let by = Moving {
                at: *told,
                is_less: *is_less,
                pointer_type: a.get().ty,
                index_type: b.get().ty,
            };
            out.move_operands(at, line, *pointer_first, by, left, right)
        }
        ValueNode::Difference(told, a, b) => {
            let left = self::value(at, out, a.get(), k)?;
            let right = self::value(at, out, b.get(), k)?;
            out.subtract_pointers(at, a.get().ty, line, *told, k, left, right)
        }
        ValueNode::Comparison(op, told, a, b) => {
            let left = self::value(at, out, a.get(), k)?;
            let right = self::value(at, out, b.get(), at.free_behind(a.get().ty, k)?)?;
            out.compare(at, a.get().ty, *op, line, *told, k, left, right)
        }
        ValueNode::Conjunction(a, b) => {
            let first = self::value(at, out, a.get(), k)?;
            decide(at, out, false, line, k, b.get(), first)
        }
        ValueNode::Disjunction(a, b) => {
            let first = self::value(at, out, a.get(), k)?;
            decide(at, out, true, line, k, b.get(), first)
        }
        // C11 6.5.15.
        ValueNode::Choice(e, a, b) => {
            let test = self::value(at, out, e.get(), k)?;
            let waits = out.jump_from(line, false, test)?;
            let first = self::value(at, out, a.get(), k)?;
            let target = out.join_first(at, value.ty, line, first)?;
            let over = out.turn(line, waits)?;
            let second = self::value(at, out, b.get(), k)?;
            out.join_second(at, value.ty, line, target, second)?;
            out.lead_here(over);
            Ok(target)
        }
        ValueNode::Sequence(dropped, last) => {
            drop_all(at, out, dropped, k)?;
            self::value(at, out, last.get(), k)
        }
        ValueNode::Assignment(place, e) => {
            let located = location(at, out, place.get(), k)?;
            let source = self::value(at, out, e.get(), k)?;
            out.assign(line, located, source)
        }
        ValueNode::Update(by, place, e) => {
            let located = location(at, out, place.get(), k)?;
            update(at, out, *by, value.ty, line, k, located, e.get())
        }
        ValueNode::Move(by, place, e) => {
            let located = location(at, out, place.get(), k)?;
            change_pointer(at, out, *by, value.ty, line, k, located, e.get())
        }
        ValueNode::Conversion(first, e) => {
            let operand = self::value(at, out, e.get(), k)?;
            out.converted(*first, at.ty(e.get().ty), at.ty(value.ty), operand)
        }
        ValueNode::ToBool(first, e) => {
            let operand = self::value(at, out, e.get(), k)?;
            out.truth(at, e.get().ty, line, *first, k, operand)
        }
        ValueNode::Requalified(e) => self::value(at, out, e.get(), k),
        ValueNode::Discarded(e) => self::value(at, out, e.get(), k),
        ValueNode::Call(told, entity, es) => {
            let args = arguments(at, out, es, k)?;
            out.call(
                at,
                value.ty,
                line,
                *told,
                at.function_number(*entity)?,
                k,
                args,
            )
        }
        ValueNode::CallThrough(told, e, es) => {
            let callee = self::value(at, out, e.get(), k)?;
            let args = arguments(at, out, es, behind(k)?)?;
            out.call_through(at, value.ty, e.get().ty, line, *told, k, callee, args)
        }
        ValueNode::Putchar(told, e) => {
            let operand = self::value(at, out, e.get(), k)?;
            out.put_byte(line, *told, operand)
        }
        ValueNode::Getchar(told) => out.get_byte(line, *told, k),
        ValueNode::Exit(told, e) => {
            let operand = self::value(at, out, e.get(), k)?;
            out.exit(*told, operand)
        }
    }
}

/// `&&` and `||` behind the first operand (C11 6.5.13, 6.5.14).
#[cycle(value)]
fn decide(
    at: Inside,
    out: &mut Emitter,
    is_or: bool,
    line: u32,
    k: usize,
    b: &Value,
    first: u16,
) -> Result<u16, LowerRefusal>
    ensures { Emits itself (rows_of at.entry) out.old out.new result
        (decides is_or line k (value_of (inside_view at.entry) (value_view (types_of at.entry) b.now) k) first) }
{
    let waits = out.jump_from(line, is_or, first)?;
    let second = value(at, out, b, k)?;
    let target = out.test_second(is_or, line, k, second)?;
    out.lead_here(waits);
    out.set(target, u64::from(is_or), line)
}

/// `l op= e`, `++l`, `l++` on integers, behind the place.
#[cycle(value)]
fn update(
    at: Inside,
    out: &mut Emitter,
    by: IntegerChange,
    of: TypeRef,
    line: u32,
    k: usize,
    located: Located,
    e: &Value,
) -> Result<u16, LowerRefusal>
    ensures { Emits itself (rows_of at.entry) out.old out.new result
        (updated (inside_view at.entry) by.is_after by.first by.op by.at by.ty (types_of at.entry of) line k (located_view located)
        (value_view (types_of at.entry) e.now)) }
{
    let begun = out.begin_update(at, by.is_after, line, of, k, located)?;
    let change = out.widen(by.first, at.ty(of), by.ty, begun)?;
    let free = if by.is_after {
        behind(behind(k)?)?
    } else {
        behind(k)?
    };
    let right = value(at, out, e, free)?;
    out.end_update(by, at.ty(of), line, located, change, right)
}

/// The same on a pointer.
#[cycle(value)]
fn change_pointer(
    at: Inside,
    out: &mut Emitter,
    by: PointerChange,
    of: TypeRef,
    line: u32,
    k: usize,
    located: Located,
    e: &Value,
) -> Result<u16, LowerRefusal>
    ensures { Emits itself (rows_of at.entry) out.old out.new result
        (repointed (inside_view at.entry) by.is_after by.is_less by.at (types_of at.entry of) (types_of at.entry e.now.ty) line k (located_view located)
        (value_view (types_of at.entry) e.now)) }
{
    let change = out.begin_move(at, by.is_after, line, of, k, located)?;
    let index = value(at, out, e, k)?;
    let moving = Moving {
        at: by.at,
        is_less: by.is_less,
        pointer_type: of,
        index_type: e.ty,
    };
    out.end_move(at, by.is_after, moving, line, located, change, index)
}

/// The values of arguments, in order.
#[cycle(value)]
fn arguments(
    at: Inside,
    out: &mut Emitter,
    es: &Items<Boxed<Value>>,
    k: usize,
) -> Result<Registers, LowerRefusal>
    ensures { Emits registers_list (rows_of at.entry) out.old out.new result
        (values_in (inside_view at.entry) (values_from (map (value_view (types_of at.entry)) es.now)) k) }
{
    let mut found = Registers::new();
    let mut free = k;
    for e in es.as_slice() {
        let register = value(at, out, e.get(), free)?;
        if found.is_full() {
            return Err(LowerRefusal::Memory);
        }
        found.push(register);
        free = at.free_behind(e.get().ty, free)?;
    }
    Ok(found)
}

/// Values that are dropped (C11 6.5.17p2).
#[cycle(value)]
fn drop_all(
    at: Inside,
    out: &mut Emitter,
    es: &Items<Boxed<Value>>,
    k: usize,
) -> Result<(), LowerRefusal>
    ensures { Emits nothing (rows_of at.entry) out.old out.new result
        (dropped_in (inside_view at.entry) (values_from (map (value_view (types_of at.entry)) es.now)) k) }
{
    for e in es.as_slice() {
        value(at, out, e.get(), k)?;
    }
    Ok(())
}

/// The address of a place in memory.
#[cycle(value)]
pub(crate) fn address(
    at: Inside,
    out: &mut Emitter,
    place: &Place,
    k: usize,
) -> Result<u16, LowerRefusal>
    ensures { Emits itself (rows_of at.entry) out.old out.new result
        (address_of (inside_view at.entry) (place_view (types_of at.entry) place.now) k) }
{
    let line = place.line;
    match &place.node {
        PlaceNode::Local(number) => out.local_address(*number as usize, line),
        PlaceNode::Static(entity) => out.object_address(number_of(at.program, *entity), line),
        PlaceNode::Text(text) => {
            out.object_address(number_of_text(at.program, at.part, *text)?, line)
        }
        PlaceNode::Pointed(pointer) => value(at, out, pointer.get(), k),
        PlaceNode::Element(told, pointer_first, a, b) => {
            let left = value(at, out, a.get(), k)?;
            let right = value(at, out, b.get(), at.free_behind(a.get().ty, k)?)?;
            let by = Moving {
                at: *told,
                is_less: false,
                pointer_type: a.get().ty,
                index_type: b.get().ty,
            };
            out.move_operands(at, line, *pointer_first, by, left, right)
        }
    }
}

/// A place with its register.
#[cycle(value)]
fn location(at: Inside, out: &mut Emitter, place: &Place, k: usize) -> Result<Located, LowerRefusal>
    ensures { Emits located_view (rows_of at.entry) out.old out.new result
        (location_of (inside_view at.entry) (place_view (types_of at.entry) place.now) k) }
{
    match at.where_is(place) {
        Where::Register(number) => Ok(Located::Held(out.home(number))),
        Where::Memory(is_volatile, line) => {
            let pointer = address(at, out, place, k)?;
            Ok(Located::Stored(is_volatile, line, pointer))
        }
    }
}
