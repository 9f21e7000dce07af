ghost use Rattle.std.specs.Prelude.{◌≡◌, ℕ, ◌≤◌, length, IfSome, IsNone, IfOk};
ghost use Rattle.mid_code.specs.Fits.{IsValue};
ghost use Rattle.c_typed.specs.StatementViews.{program_view};
ghost use Rattle.c_typed.specs.Views.{value_view, place_view};
ghost use Rattle.source_meaning.specs.Sound.{CanRun, HasOperands, PlaceHasOperands};
ghost use Rattle.c_meaning.specs.Plans.{address_of_local as local_address};
ghost use Rattle.c_meaning.specs.Leaves.{IsLeaf, IsAddress, IsRegister};
ghost use Rattle.c_meaning.specs.Runs.{setting_of, types_of};

use crate::locals::Locals;
use crate::setting::{At, address_of_text, value_of_entity};
use c_typed::{Place, PlaceNode, Value, ValueNode};
use frames::{Input, Memory};
use srmt_base::{Budgets, Trap};

/// Undefined behaviour, or a budget that is used up, at a line.
#[derive(Clone, Copy)]
pub(crate) struct Trapped {
    pub(crate) trap: Trap,
    pub(crate) line: u32,
}

/// What a run stores: memory, what is left of the budgets and of the input, and the locals of the function that runs.
#[derive(Drop)]
pub(crate) struct Stored {
    pub(crate) memory: Memory,
    pub(crate) budgets: Budgets,
    pub(crate) input: Input,
    pub(crate) locals: Locals,
}

impl Stored {
    /// The address of a local; 0 for one in a register.
    pub(crate) fn address_of_local(&self, at: At, number: usize) -> u64
        ensures value { (bound : ℕ) → result ≡ local_address (setting_of bound at.entry) number self.now.locals }
        ensures small { IsValue result }
    {
        if at.row(number).is_placed {
            self.locals.get(number)
        } else {
            0
        }
    }

    /// The address of a place that has no operands; 0 for a local in a register.
    pub(crate) fn address(&self, at: At, place: &Place) -> Option<u64>
        requires can { CanRun (program_view at.program.now) }
        requires has { PlaceHasOperands (place_view (types_of at.program.now) place.now) }
        ensures exact { IsAddress at.entry self.now (place_view (types_of at.entry.program.now) place.now) result }
        ensures small { IfSome result IsValue }
    {
        match &place.node {
            PlaceNode::Local(number) => Some(self.address_of_local(at, *number as usize)),
            PlaceNode::Static(entity) => Some(value_of_entity(at.program, *entity)),
            PlaceNode::Text(number) => {
                Some(address_of_text(at.program, at.current.part, *number))
            }
            PlaceNode::Pointed(_) | PlaceNode::Element(..) => None,
        }
    }

    /// The value of a local in a register, if a place is one.
    fn register(&self, at: At, place: &Place) -> Option<u64>
        ensures exact { IsRegister at.entry self.now (place_view (types_of at.entry.program.now) place.now) result }
        ensures small { IfSome result IsValue }
    {
        let PlaceNode::Local(number) = &place.node else {
            return None;
        };
        if at.row(*number as usize).is_placed {
            None
        } else {
            Some(self.locals.get(*number as usize))
        }
    }

    /// A value that needs no operand and no access.
    pub(crate) fn leaf(&self, at: At, value: &Value) -> Option<u64>
        requires can { CanRun (program_view at.program.now) }
        ensures exact { IsLeaf at.entry self.now (value_view (types_of at.entry.program.now) value.now) result }
        ensures small { IfSome result IsValue }
    {
        match &value.node {
            ValueNode::Constant(number) => Some(u64::from(*number)),
            ValueNode::Null => Some(0),
            ValueNode::Function(entity) => Some(value_of_entity(at.program, *entity)),
            ValueNode::Read(place) => self.register(at, place.get()),
            ValueNode::FirstElement(_) | ValueNode::Address(_) => None,
            ValueNode::Minus(_) | ValueNode::Complement(_) | ValueNode::Negation(_) => None,
            ValueNode::Arithmetic(..) | ValueNode::Sum(..) | ValueNode::Difference(..) => None,
            ValueNode::Comparison(..) | ValueNode::Conjunction(..) => None,
            ValueNode::Disjunction(..) | ValueNode::Choice(..) | ValueNode::Sequence(..) => None,
            ValueNode::Assignment(..) | ValueNode::Update(..) | ValueNode::Move(..) => None,
            ValueNode::Conversion(..) | ValueNode::ToBool(..) => None,
            ValueNode::Requalified(_) | ValueNode::Discarded(_) => None,
            ValueNode::Call(..) | ValueNode::CallThrough(..) => None,
            ValueNode::Putchar(..) | ValueNode::Getchar(_) | ValueNode::Exit(..) => None,
        }
    }
}
