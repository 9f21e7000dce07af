ghost use Rattle.std.specs.Prelude.{◌≡◌, ◌+◌, ◌^◌, ◌<◌, ◌≤◌, [], IfSome, IfOk, OnErr};
ghost use Rattle.srmt_base.specs.declared.event.Event.{Event};
ghost use Rattle.srmt_base.specs.Objects.{object_part, offset_part};
ghost use Rattle.srmt_base.specs.Memory.{read_of, write_of};
ghost use Rattle.srmt_outside.specs.Told.{Appends};
ghost use Rattle.mid_code.specs.Fits.{IsValue};
ghost use Rattle.mid_code.specs.Meaning.{after_read, after_write, reach as reach_of};
ghost use Rattle.frames.specs.Acts.{IsThere, CanReach};
ghost use Rattle.frames.specs.Reaching.{state_of, events_of, volatile_read, volatile_write, LeadsTo, GivesEvent, HasRoom, Counted};

use crate::entry::part_of;
use crate::running::Running;
use mid_code::{Access, MidProgram};
use srmt_base::{Event, SourceEnd};
use srmt_outside::{Failed, Outlet};

/// Does what an instruction wants, and answers the end if the run ends by it. Where the event of the
/// instruction failed, nothing has changed.
pub fn reach<O: Outlet>(
    running: &mut Running,
    program: &MidProgram,
    access: Access,
    line: u32,
    outlet: &mut O,
) -> Result<Option<SourceEnd>, Failed>
    requires place { running.old.frames.machine.top.place + 1 < 2 ^ 32 }
    requires can { CanReach access running.old.frames.machine.top }
    requires room { HasRoom running.old }
    ensures reached { IfOk result (λ end. LeadsTo (reach_of program.now access line (state_of running.old)) (state_of running.new) (events_of access end) end) }
    ensures told { IfOk result (λ end. Appends (O.events outlet.old) (O.events outlet.new) (events_of access end)) }
    ensures still { IfOk result (λ end. IfSome end (λ _. running.new ≡ running.old)) }
    ensures room { running.new.frames.room ≡ running.old.frames.room }
    ensures before { OnErr result (GivesEvent (reach_of program.now access line (state_of running.old))) }
    ensures kept { OnErr result (running.new ≡ running.old) }
    ensures unwritten { OnErr result (O.events outlet.new ≡ O.events outlet.old) }
    ensures counted { Counted result (O.faults outlet.old) (O.faults outlet.new) }
{
    match access {
        Access::Loads { target, pointer } => Ok(load(running, target, pointer, line)),
        Access::Stores { pointer, value } => Ok(store(running, pointer, value, line)),
        Access::VolatileLoads { target, pointer } => {
            load_volatile(running, target, pointer, line, outlet)
        }
        Access::VolatileStores { pointer, value } => {
            store_volatile(running, pointer, value, line, outlet)
        }
        Access::Opens { target, cells } => Ok(open(running, program, target, cells, line)),
        Access::Closes { number } => {
            running.memory.end(number);
            running.frames.finish();
            Ok(None)
        }
        Access::Puts(value) => {
            outlet.event(Event::Byte((value % 256) as u8))?;
            running.frames.pass();
            Ok(None)
        }
        Access::Gets { target } => {
            let byte = running.input.next();
            running.frames.give(target, byte);
            Ok(None)
        }
        Access::Exits(value) => {
            let status = (value % 256) as u8;
            outlet.event(Event::Exit(status))?;
            Ok(Some(SourceEnd::Exit(status)))
        }
    }
}

/// Reads a cell into the target register.
fn load(running: &mut Running, target: u16, pointer: u64, line: u32) -> Option<SourceEnd>
    requires place { running.old.frames.machine.top.place + 1 < 2 ^ 32 }
    requires target { IsThere running.old.frames.machine.top target }
    ensures reached { let s = state_of running.old in LeadsTo (after_read target line [] s (read_of s.memory pointer)) (state_of running.new) [] result }
    ensures still { IfSome result (λ _. running.new ≡ running.old) }
    ensures room { running.new.frames.room ≡ running.old.frames.room }
{
    match running.memory.load(pointer) {
        Ok(value) => {
            running.frames.give(target, value);
            None
        }
        Err(trap) => Some(SourceEnd::Trap(trap, line)),
    }
}

/// Writes a cell.
fn store(running: &mut Running, pointer: u64, value: u64, line: u32) -> Option<SourceEnd>
    requires place { running.old.frames.machine.top.place + 1 < 2 ^ 32 }
    requires small { IsValue value }
    ensures reached { let s = state_of running.old in LeadsTo (after_write line [] s (write_of s.memory pointer value)) (state_of running.new) [] result }
    ensures still { IfSome result (λ _. running.new ≡ running.old) }
    ensures room { running.new.frames.room ≡ running.old.frames.room }
{
    match running.memory.put(pointer, value) {
        Ok(()) => {
            running.frames.pass();
            None
        }
        Err(trap) => Some(SourceEnd::Trap(trap, line)),
    }
}

/// Reads a volatile cell, which is an event, into the target register.
fn load_volatile<O: Outlet>(
    running: &mut Running,
    target: u16,
    pointer: u64,
    line: u32,
    outlet: &mut O,
) -> Result<Option<SourceEnd>, Failed>
    requires place { running.old.frames.machine.top.place + 1 < 2 ^ 32 }
    requires target { IsThere running.old.frames.machine.top target }
    requires pointer { IsValue pointer }
    ensures reached { IfOk result (λ end. LeadsTo (volatile_read target pointer line (state_of running.old)) (state_of running.new) (events_of (Access.VolatileLoads target pointer) end) end) }
    ensures told { IfOk result (λ end. Appends (O.events outlet.old) (O.events outlet.new) (events_of (Access.VolatileLoads target pointer) end)) }
    ensures still { IfOk result (λ end. IfSome end (λ _. running.new ≡ running.old)) }
    ensures room { running.new.frames.room ≡ running.old.frames.room }
    ensures before { OnErr result (GivesEvent (volatile_read target pointer line (state_of running.old))) }
    ensures kept { OnErr result (running.new ≡ running.old) }
    ensures unwritten { OnErr result (O.events outlet.new ≡ O.events outlet.old) }
    ensures counted { Counted result (O.faults outlet.old) (O.faults outlet.new) }
{
    match running.memory.load(pointer) {
        Ok(value) => {
            let (object, offset) = parts(pointer);
            outlet.event(Event::PortRead(object, offset))?;
            running.frames.give(target, value);
            Ok(None)
        }
        Err(trap) => Ok(Some(SourceEnd::Trap(trap, line))),
    }
}

/// Writes a volatile cell, which is an event. The event comes first, where the write can be made, so
/// that one that fails leaves the cell as it was.
fn store_volatile<O: Outlet>(
    running: &mut Running,
    pointer: u64,
    value: u64,
    line: u32,
    outlet: &mut O,
) -> Result<Option<SourceEnd>, Failed>
    requires place { running.old.frames.machine.top.place + 1 < 2 ^ 32 }
    requires pointer { IsValue pointer }
    requires small { IsValue value }
    ensures reached { IfOk result (λ end. LeadsTo (volatile_write pointer value line (state_of running.old)) (state_of running.new) (events_of (Access.VolatileStores pointer value) end) end) }
    ensures told { IfOk result (λ end. Appends (O.events outlet.old) (O.events outlet.new) (events_of (Access.VolatileStores pointer value) end)) }
    ensures still { IfOk result (λ end. IfSome end (λ _. running.new ≡ running.old)) }
    ensures room { running.new.frames.room ≡ running.old.frames.room }
    ensures before { OnErr result (GivesEvent (volatile_write pointer value line (state_of running.old))) }
    ensures kept { OnErr result (running.new ≡ running.old) }
    ensures unwritten { OnErr result (O.events outlet.new ≡ O.events outlet.old) }
    ensures counted { Counted result (O.faults outlet.old) (O.faults outlet.new) }
{
    if let Err(trap) = running.memory.may_put(pointer) {
        return Ok(Some(SourceEnd::Trap(trap, line)));
    }
    let (object, offset) = parts(pointer);
    outlet.event(Event::PortWrite(object, offset, value))?;
    let Ok(()) = running.memory.put(pointer, value) else {
        unreachable!();
    };
    running.frames.pass();
    Ok(None)
}

/// The object and the offset of a pointer.
fn parts(pointer: u64) -> (u32, u16)
    requires { IsValue pointer }
    ensures object { result.0 ≡ object_part pointer }
    ensures offset { result.1 ≡ offset_part pointer }
{
    ((pointer / 65536) as u32, (pointer % 65536) as u16)
}

/// Begins an object in the part of the newest activation's function, whose address goes into the
/// target register.
fn open(
    running: &mut Running,
    program: &MidProgram,
    target: u16,
    cells: u16,
    line: u32,
) -> Option<SourceEnd>
    requires place { running.old.frames.machine.top.place + 1 < 2 ^ 32 }
    requires target { IsThere running.old.frames.machine.top target }
    requires cells { 1 ≤ cells }
    requires room { HasRoom running.old }
    ensures reached { LeadsTo (reach_of program.now (Access.Opens target cells) line (state_of running.old)) (state_of running.new) [] result }
    ensures still { IfSome result (λ _. running.new ≡ running.old) }
    ensures room { running.new.frames.room ≡ running.old.frames.room }
{
    let part = part_of(program, running.frames.function());
    match running.memory.begin(part, cells) {
        Ok(number) => {
            running.frames.begin(target, number);
            None
        }
        Err(trap) => Some(SourceEnd::Trap(trap, line)),
    }
}
