ghost use Rattle.std.specs.Prelude.{◌≡◌, [], ◌∷◌};
ghost use Rattle.mid_code.specs.Fields.{Writes, Reads, fields, present};

use crate::mid::Mid;
use crate::program::RegisterKind;
use crate::registers::Registers;
use srmt_base::{Op, Ty};

/// The kind that a register must have.
#[derive(Clone, Copy, Debug, PartialEq, Eq)]
pub enum Wanted {
    /// Either kind.
    Any,
    /// This kind.
    Kind(RegisterKind),
    /// The kind of another register.
    Like(u16),
}

/// A field of an instruction: a number with what it stands for.
#[derive(Clone, Copy, Debug, PartialEq, Eq)]
pub enum Field {
    /// A register that is written.
    Writes { register: u16, kind: Wanted },
    /// A register that is read.
    Reads { register: u16, kind: Wanted },
    /// The registers that a call passes, of either kind.
    Passes(Registers),
    /// A value below 2^44 for the register. An address can be made of 0 alone.
    Value { value: u64, register: u16 },
    /// An operator of arithmetic.
    Operator(Op),
    /// An operator that compares.
    Comparison(Op),
    /// A type of the language.
    AnyType(Ty),
    /// A type at which arithmetic is made: `int` or `unsigned int`.
    ArithmeticType(Ty),
    /// Whether a pointer moves back.
    Negated(bool),
    /// The cells of an element, from 1.
    Scale(u16),
    /// The cells of an object, from 1.
    Cells(u16),
    /// The number of a static object.
    StaticObject(u32),
    /// The number of a function other than `main`.
    Callable(u16),
    /// The place of a type in the program's types.
    TypeNumber(u16),
    /// The place of the `Open` that began an object.
    Beginning(u32),
    /// The place to which a jump leads.
    Target(u32),
}

const NUMBER: Wanted = Wanted::Kind(RegisterKind::Number);

const ADDRESS: Wanted = Wanted::Kind(RegisterKind::Address);

fn one(first: Field) -> [Option<Field>; 6]
    ensures { present result ≡ first ∷ [] }
{
    [Some(first), None, None, None, None, None]
}

fn two(first: Field, second: Field) -> [Option<Field>; 6]
    ensures { present result ≡ first ∷ second ∷ [] }
{
    [Some(first), Some(second), None, None, None, None]
}

fn three(first: Field, second: Field, third: Field) -> [Option<Field>; 6]
    ensures { present result ≡ first ∷ second ∷ third ∷ [] }
{
    [Some(first), Some(second), Some(third), None, None, None]
}

fn four(first: Field, second: Field, third: Field, fourth: Field) -> [Option<Field>; 6]
    ensures { present result ≡ first ∷ second ∷ third ∷ fourth ∷ [] }
{
    [
        Some(first),
        Some(second),
        Some(third),
        Some(fourth),
        None,
        None,
    ]
}

fn writes(register: u16, kind: Wanted) -> Field
    ensures { result ≡ Writes register kind }
{
    Field::Writes { register, kind }
}

fn reads(register: u16, kind: Wanted) -> Field
    ensures { result ≡ Reads register kind }
{
    Field::Reads { register, kind }
}

/// The fields of an instruction, in the order in which they are written.
pub fn fields(mid: &Mid) -> [Option<Field>; 6]
    ensures { present result ≡ fields mid.now }
{
    match *mid {
        Mid::Const { target, value } => two(
            writes(target, Wanted::Any),
            Field::Value {
                value,
                register: target,
            },
        ),
        Mid::Move { target, source } => two(
            writes(target, Wanted::Any),
            reads(source, Wanted::Like(target)),
        ),
        Mid::Arith {
            op,
            ty,
            target,
            left,
            right,
        } => [
            Some(Field::Operator(op)),
            Some(Field::ArithmeticType(ty)),
            Some(writes(target, NUMBER)),
            Some(reads(left, NUMBER)),
            Some(reads(right, NUMBER)),
            None,
        ],
        Mid::Conv {
            from,
            to,
            target,
            source,
        } => four(
            Field::AnyType(from),
            Field::AnyType(to),
            writes(target, NUMBER),
            reads(source, NUMBER),
        ),
        Mid::PtrAdd {
            target,
            pointer,
            index,
            ty,
            negated,
            scale,
        } => [
            Some(writes(target, ADDRESS)),
            Some(reads(pointer, ADDRESS)),
            Some(reads(index, NUMBER)),
            Some(Field::AnyType(ty)),
            Some(Field::Negated(negated)),
            Some(Field::Scale(scale)),
        ],
        Mid::PtrDiff {
            target,
            left,
            right,
            scale,
        } => four(
            writes(target, NUMBER),
            reads(left, ADDRESS),
            reads(right, ADDRESS),
            Field::Scale(scale),
        ),
        Mid::PtrCmp {
            op,
            target,
            left,
            right,
        } => four(
            Field::Comparison(op),
            writes(target, NUMBER),
            reads(left, ADDRESS),
            reads(right, ADDRESS),
        ),
        Mid::GlobAddr { target, object } => two(
            writes(target, ADDRESS),
            Field::StaticObject(object),
        ),
        Mid::FunAddr { target, function } => two(writes(target, NUMBER), Field::Callable(function)),
        Mid::Load { target, pointer } | Mid::VLoad { target, pointer } => {
            two(writes(target, Wanted::Any), reads(pointer, ADDRESS))
        }
        Mid::Store { pointer, source } | Mid::VStore { pointer, source } => {
            two(reads(pointer, ADDRESS), reads(source, Wanted::Any))
        }
        Mid::Open { target, cells } => two(writes(target, ADDRESS), Field::Cells(cells)),
        Mid::Close { place } => one(Field::Beginning(place)),
        Mid::Jump { place } => one(Field::Target(place)),
        Mid::JumpZ { source, place } | Mid::JumpN { source, place } => {
            two(reads(source, Wanted::Any), Field::Target(place))
        }
        Mid::Turn => [None, None, None, None, None, None],
        Mid::Call {
            target,
            function,
            args,
        } => {
            three(
                writes(target, Wanted::Any),
                Field::Callable(function),
                Field::Passes(args),
            )
        }
        Mid::CallPtr {
            target,
            callee,
            ty,
            args,
        } => four(
            writes(target, Wanted::Any),
            reads(callee, NUMBER),
            Field::TypeNumber(ty),
            Field::Passes(args),
        ),
        Mid::Return { source } => one(reads(source, Wanted::Any)),
        Mid::Put { source } | Mid::Exit { source } => one(reads(source, NUMBER)),
        Mid::Get { target } => one(writes(target, NUMBER)),
    }
}
