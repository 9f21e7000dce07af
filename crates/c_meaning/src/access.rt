ghost use Rattle.std.specs.Prelude.{◌≡◌, ℕ, IfOk};
ghost use Rattle.mid_code.specs.Fits.{IsValue};
ghost use Rattle.c_typed.specs.Views.{place_view, qualified_from};
ghost use Rattle.source_meaning.specs.Places.{cell_of, fetch, store};
ghost use Rattle.c_meaning.specs.Access.{local_in, event_of_read, event_of_write, IsReachable};
ghost use Rattle.c_meaning.specs.Pending.{located};
ghost use Rattle.c_meaning.specs.Runs.{setting_of, types_of, location_view, Fetches, Makes};

use crate::setting::At;
use crate::store::{Stored, Trapped};
use c_typed::{Place, PlaceNode};
use c_types::QualifiedRef;
use srmt_base::Event;

/// A local in a register, or a cell of memory, whose access is an event where the lvalue is volatile.
#[derive(Clone, Copy)]
pub(crate) enum Location {
    Register(usize),
    Cell {
        is_volatile: bool,
        line: u32,
        pointer: u64,
    },
}

/// The cell at an address, through an lvalue of a type.
fn cell(ty: QualifiedRef, line: u32, pointer: u64) -> Location
    ensures { result ≡ Location.Cell ty.qualifiers.is_volatile line pointer }
{
    Location::Cell {
        is_volatile: ty.qualifiers.is_volatile,
        line,
        pointer,
    }
}

impl<'p> At<'p> {
    /// A local, whose address is this where it is in memory.
    pub(crate) fn local(self, number: usize, ty: QualifiedRef, line: u32, address: u64) -> Location
        requires { IsValue address }
        ensures reachable { IsReachable result }
        ensures exact { (bound : ℕ) → location_view result ≡
            local_in (setting_of bound self.entry) number (qualified_from (types_of self.entry.program.now) ty) line address }
    {
        if self.row(number).is_placed {
            cell(ty, line, address)
        } else {
            Location::Register(number)
        }
    }

    /// A place, whose address is this where it is in memory.
    pub(crate) fn located(self, place: &Place, address: u64) -> Location
        requires { IsValue address }
        ensures reachable { IsReachable result }
        ensures exact { (bound : ℕ) → location_view result ≡
            located (setting_of bound self.entry) (place_view (types_of self.entry.program.now) place.now) address }
    {
        match &place.node {
            PlaceNode::Local(number) => {
                self.local(*number as usize, place.ty, place.line, address)
            }
            PlaceNode::Element(line, _, _, _) => cell(place.ty, *line, address),
            PlaceNode::Static(_) | PlaceNode::Text(_) | PlaceNode::Pointed(_) => {
                cell(place.ty, place.line, address)
            }
        }
    }
}

impl Stored {
    /// What an object holds (C11 6.3.2.1p2), and the event of a volatile access.
    pub(crate) fn fetch(&self, location: Location) -> Result<(u64, Option<Event>), Trapped>
        requires { IsReachable location }
        ensures fetches { Fetches (fetch (location_view location)) self.now result }
        ensures small { IfOk result (λ found. IsValue found.0) }
    {
        match location {
            Location::Register(number) => Ok((self.locals.get(number), None)),
            Location::Cell {
                is_volatile,
                line,
                pointer,
            } => match self.memory.load(pointer) {
                Ok(value) => Ok((value, read_event(is_volatile, pointer))),
                Err(trap) => Err(Trapped { trap, line }),
            },
        }
    }

    /// An object takes a value (C11 6.5.16p3), and the event of a volatile access is answered.
    pub(crate) fn store(&mut self, location: Location, value: u64) -> Result<Option<Event>, Trapped>
        requires reachable { IsReachable location }
        requires small { IsValue value }
        ensures makes { Makes (store (location_view location) value) self.old self.new result }
        ensures budgets { self.new.budgets ≡ self.old.budgets }
    {
        match location {
            Location::Register(number) => {
                self.locals.set(number, value);
                Ok(None)
            }
            Location::Cell {
                is_volatile,
                line,
                pointer,
            } => match self.memory.put(pointer, value) {
                Ok(()) => Ok(write_event(is_volatile, pointer, value)),
                Err(trap) => Err(Trapped { trap, line }),
            },
        }
    }
}

/// The event of a volatile read.
fn read_event(is_volatile: bool, pointer: u64) -> Option<Event>
    requires { IsValue pointer }
    ensures { result ≡ event_of_read is_volatile pointer }
{
    if is_volatile {
        let object = (pointer / 65536) as u32;
        let offset = (pointer % 65536) as u16;
        Some(Event::PortRead(object, offset))
    } else {
        None
    }
}

/// The event of a volatile write.
fn write_event(is_volatile: bool, pointer: u64, value: u64) -> Option<Event>
    requires { IsValue pointer }
    ensures { result ≡ event_of_write is_volatile pointer value }
{
    if is_volatile {
        let object = (pointer / 65536) as u32;
        let offset = (pointer % 65536) as u16;
        Some(Event::PortWrite(object, offset, value))
    } else {
        None
    }
}
