ghost use Rattle.std.specs.Prelude.{◌≡◌, ◌∷◌, [], OnOk};
ghost use Rattle.c_typed.specs.Views.{value_view, place_view};
ghost use Rattle.c_meaning.specs.Pending.{does, evaluate, evaluate_all, evaluate_dropped, locate, hold, hold_above, finish};
ghost use Rattle.c_meaning.specs.Plans.{value_plan, all_plan, dropped_plan, place_plan};
ghost use Rattle.c_meaning.specs.Puts.{Puts};
ghost use Rattle.c_meaning.specs.TaskViews.{task_view, values_view};
ghost use Rattle.c_meaning.specs.declared.task.Task.TheVariants as task;

use crate::stack::Tasks;
use crate::task::{ItemsWork, LocalsWork, PlaceWork, StmtWork, Task, ValueWork, ValuesWork};
use c_typed::{Place, PlaceNode, Value, ValueNode};
use sqlite_items::{Boxed, Items};
use std::alloc::AllocError;

/// The first operand is to be evaluated, and then this is to be done with the value.
fn one<'p>(
    tasks: &mut Tasks<'p>,
    value: &'p Value,
    work: ValueWork,
    e: &'p Boxed<Value>,
) -> Result<(), AllocError>
    ensures { OnOk result (Puts tasks.old tasks.new (λ types. does (evaluate (value_view types e.now)) ∷ task_view types (task.Value work value.entry) ∷ [])) }
{
    tasks.push(Task::Value(work, value))?;
    tasks.push(Task::Value(ValueWork::Evaluate, e.get()))
}

/// Two operands are to be evaluated, and then the value is finished.
fn two<'p>(
    tasks: &mut Tasks<'p>,
    value: &'p Value,
    a: &'p Boxed<Value>,
    b: &'p Boxed<Value>,
) -> Result<(), AllocError>
    ensures { OnOk result (Puts tasks.old tasks.new (λ types.
        does (evaluate (value_view types a.now)) ∷ does (evaluate (value_view types b.now)) ∷ does (finish (value_view types value.now)) ∷ [])) }
{
    tasks.push(Task::Value(ValueWork::Finish, value))?;
    tasks.push(Task::Value(ValueWork::Evaluate, b.get()))?;
    tasks.push(Task::Value(ValueWork::Evaluate, a.get()))
}

/// A value comes to the same as another.
fn same<'p>(tasks: &mut Tasks<'p>, e: &'p Boxed<Value>) -> Result<(), AllocError>
    ensures { OnOk result (Puts tasks.old tasks.new (λ types. does (evaluate (value_view types e.now)) ∷ [])) }
{
    tasks.push(Task::Value(ValueWork::Evaluate, e.get()))
}

/// The address of a place is to be found.
fn address<'p>(tasks: &mut Tasks<'p>, place: &'p Boxed<Place>) -> Result<(), AllocError>
    ensures { OnOk result (Puts tasks.old tasks.new (λ types. does (locate (place_view types place.now)) ∷ [])) }
{
    tasks.push(Task::Place(PlaceWork::Locate, place.get()))
}

/// What a place holds is to be read.
fn read<'p>(tasks: &mut Tasks<'p>, place: &'p Boxed<Place>) -> Result<(), AllocError>
    ensures { OnOk result (Puts tasks.old tasks.new (λ types. does (locate (place_view types place.now)) ∷ does (hold (place_view types place.now)) ∷ [])) }
{
    tasks.push(Task::Place(PlaceWork::Hold, place.get()))?;
    tasks.push(Task::Place(PlaceWork::Locate, place.get()))
}

/// A place takes a value.
fn assign<'p>(
    tasks: &mut Tasks<'p>,
    value: &'p Value,
    place: &'p Boxed<Place>,
    e: &'p Boxed<Value>,
) -> Result<(), AllocError>
    ensures { OnOk result (Puts tasks.old tasks.new (λ types.
        does (locate (place_view types place.now)) ∷ does (evaluate (value_view types e.now)) ∷ does (finish (value_view types value.now)) ∷ [])) }
{
    tasks.push(Task::Value(ValueWork::Finish, value))?;
    tasks.push(Task::Value(ValueWork::Evaluate, e.get()))?;
    tasks.push(Task::Place(PlaceWork::Locate, place.get()))
}

/// A place takes a value that is made of what it holds.
fn change<'p>(
    tasks: &mut Tasks<'p>,
    value: &'p Value,
    place: &'p Boxed<Place>,
    e: &'p Boxed<Value>,
) -> Result<(), AllocError>
    ensures { OnOk result (Puts tasks.old tasks.new (λ types.
        does (locate (place_view types place.now)) ∷ does (hold_above (place_view types place.now)) ∷ does (evaluate (value_view types e.now)) ∷ does (finish (value_view types value.now)) ∷ [])) }
{
    tasks.push(Task::Value(ValueWork::Finish, value))?;
    tasks.push(Task::Value(ValueWork::Evaluate, e.get()))?;
    tasks.push(Task::Place(PlaceWork::HoldAbove, place.get()))?;
    tasks.push(Task::Place(PlaceWork::Locate, place.get()))
}

/// Values are dropped, and then the last is evaluated.
fn in_sequence<'p>(
    tasks: &mut Tasks<'p>,
    dropped: &'p Items<Boxed<Value>>,
    last: &'p Boxed<Value>,
) -> Result<(), AllocError>
    ensures { OnOk result (Puts tasks.old tasks.new (λ types.
        does (evaluate_dropped (values_view types dropped.now)) ∷ does (evaluate (value_view types last.now)) ∷ [])) }
{
    tasks.push(Task::Value(ValueWork::Evaluate, last.get()))?;
    tasks.push(Task::Values(ValuesWork::Drop, dropped.as_slice()))
}

/// Arguments are evaluated, and then the function is called.
fn call<'p>(
    tasks: &mut Tasks<'p>,
    value: &'p Value,
    arguments: &'p Items<Boxed<Value>>,
) -> Result<(), AllocError>
    ensures { OnOk result (Puts tasks.old tasks.new (λ types.
        does (evaluate_all (values_view types arguments.now)) ∷ does (finish (value_view types value.now)) ∷ [])) }
{
    tasks.push(Task::Value(ValueWork::Finish, value))?;
    tasks.push(Task::Values(ValuesWork::Evaluate, arguments.as_slice()))
}

/// What is called is evaluated, then the arguments, and then it is called.
fn call_through<'p>(
    tasks: &mut Tasks<'p>,
    value: &'p Value,
    callee: &'p Boxed<Value>,
    arguments: &'p Items<Boxed<Value>>,
) -> Result<(), AllocError>
    ensures { OnOk result (Puts tasks.old tasks.new (λ types.
        does (evaluate (value_view types callee.now)) ∷ does (evaluate_all (values_view types arguments.now)) ∷ does (finish (value_view types value.now)) ∷ [])) }
{
    call(tasks, value, arguments)?;
    tasks.push(Task::Value(ValueWork::Evaluate, callee.get()))
}

/// What stands in the place of the evaluation of a value; nothing for a constant, a null pointer and a function.
pub(crate) fn plan_value<'p>(tasks: &mut Tasks<'p>, value: &'p Value) -> Result<(), AllocError>
    ensures { OnOk result (Puts tasks.old tasks.new (λ types. value_plan (value_view types value.now))) }
{
    match &value.node {
        ValueNode::Constant(_) | ValueNode::Null | ValueNode::Function(_) => Ok(()),
        ValueNode::Read(place) => read(tasks, place),
        ValueNode::FirstElement(place) | ValueNode::Address(place) => address(tasks, place),
        ValueNode::Minus(e)
        | ValueNode::Complement(e)
        | ValueNode::Negation(e)
        | ValueNode::Conversion(_, e)
        | ValueNode::ToBool(_, e)
        | ValueNode::Putchar(_, e)
        | ValueNode::Exit(_, e) => one(tasks, value, ValueWork::Finish, e),
        ValueNode::Arithmetic(_, _, a, b)
        | ValueNode::Sum(_, _, _, a, b)
        | ValueNode::Difference(_, a, b)
        | ValueNode::Comparison(_, _, a, b) => two(tasks, value, a, b),
        ValueNode::Conjunction(e, _) | ValueNode::Disjunction(e, _) | ValueNode::Choice(e, _, _) =>
            { one(tasks, value, ValueWork::Decide, e) }
        ValueNode::Sequence(dropped, last) => in_sequence(tasks, dropped, last),
        ValueNode::Assignment(place, e) => assign(tasks, value, place, e),
        ValueNode::Update(_, place, e) => change(tasks, value, place, e),
        ValueNode::Move(_, place, e) => change(tasks, value, place, e),
        ValueNode::Requalified(e) | ValueNode::Discarded(e) => same(tasks, e),
        ValueNode::Call(_, _, arguments) => call(tasks, value, arguments),
        ValueNode::CallThrough(_, callee, arguments) => {
            call_through(tasks, value, callee, arguments)
        }
        ValueNode::Getchar(_) => tasks.push(Task::Value(ValueWork::Finish, value)),
    }
}

/// What stands in the place of values in order.
pub(crate) fn plan_values<'p>(
    tasks: &mut Tasks<'p>,
    values: &'p [Boxed<Value>],
) -> Result<(), AllocError>
    ensures { OnOk result (Puts tasks.old tasks.new (λ types. all_plan (values_view types values.now))) }
{
    let Some((first, rest)) = values.split_first() else {
        return Ok(());
    };
    tasks.push(Task::Values(ValuesWork::Evaluate, rest))?;
    tasks.push(Task::Value(ValueWork::Evaluate, first.get()))
}

/// What stands in the place of values that are dropped.
pub(crate) fn plan_dropped<'p>(
    tasks: &mut Tasks<'p>,
    values: &'p [Boxed<Value>],
) -> Result<(), AllocError>
    ensures { OnOk result (Puts tasks.old tasks.new (λ types. dropped_plan (values_view types values.now))) }
{
    let Some((first, rest)) = values.split_first() else {
        return Ok(());
    };
    tasks.push(Task::Values(ValuesWork::Drop, rest))?;
    tasks.push(Task::Forget)?;
    tasks.push(Task::Value(ValueWork::Evaluate, first.get()))
}

/// What stands in the place of a place with operands; nothing for any other.
pub(crate) fn plan_place<'p>(tasks: &mut Tasks<'p>, place: &'p Place) -> Result<(), AllocError>
    ensures { OnOk result (Puts tasks.old tasks.new (λ types. place_plan (place_view types place.now))) }
{
    match &place.node {
        PlaceNode::Local(_) | PlaceNode::Static(_) | PlaceNode::Text(_) => Ok(()),
        PlaceNode::Pointed(e) => same(tasks, e),
        PlaceNode::Element(_, _, a, b) => {
            tasks.push(Task::Place(PlaceWork::Point, place))?;
            tasks.push(Task::Value(ValueWork::Evaluate, b.get()))?;
            tasks.push(Task::Value(ValueWork::Evaluate, a.get()))
        }
    }
}
