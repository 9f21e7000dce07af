ghost use Rattle.std.specs.Prelude.{◌≡◌, ◌^◌, ◌<◌, ◌≤◌, if◌then◌else◌, is_ok, OnOk};
ghost use Rattle.std.specs.Io.KnownBytes as known;
ghost use Rattle.srmt_outside.specs.Count.{next_count};
ghost use Rattle.srmt_outside.specs.RealOutlet.{output_of, line_of};

use crate::{Failed, Outlet};
use srmt_base::Event;
use std::io;
use std::io::Write;
use std::marker::Model;

/// Writes bytes to one handle of the runtime, and a line for each access of a port to another.
///
/// Clauses see it as its count of faults.
#[derive(Drop)]
pub struct RealOutlet<O, E> {
    output: O,
    errors: E,
    faults: u64,
}

impl<O, E> Model for RealOutlet<O, E> {
    ghost use Rattle.std.specs.Prelude.{ℕ, ◌^◌, ◌<◌};

    ghost Value = { ℕ };

    ghost view = { λ o. o.faults };

    ghost invariant = { λ o. o.faults < 2 ^ 64 };
}

impl<O: Write, E: Write> RealOutlet<O, E> {
    /// An outlet over standard output and standard error.
    pub fn new(output: O, errors: E) -> RealOutlet<O, E>
        ensures { result ≡ 0 }
    {
        RealOutlet {
            output,
            errors,
            faults: 0,
        }
    }
}

impl<O: Write, E: Write> Outlet for RealOutlet<O, E> {
    ghost use Rattle.std.specs.Prelude.{None};

    ghost events = { λ _. None };

    ghost faults = { λ o. o };

    fn event(&mut self, event: Event) -> Result<(), Failed>
        ensures count { self.new ≡ (if is_ok result then self.old else next_count self.old) }
        ensures never_falls { self.old ≤ self.new }
        ensures count_fits { self.new < 2 ^ 64 }
    {
        if write(&mut self.output, &mut self.errors, event).is_err() {
            self.faults = self.faults.saturating_add(1);
            return Err(Failed);
        }
        Ok(())
    }
}

// Each byte goes out by a write of its own. `write_all` takes a write of no byte as an error, and
// tries again where a signal came between.
fn write<O: Write, E: Write>(output: &mut O, errors: &mut E, event: Event) -> io::Result<()>
    ensures bytes { OnOk result
        (known.Appends (O.contents output.old) (O.contents output.new) (output_of event)) }
    ensures lines { OnOk result
        (known.Appends (E.contents errors.old) (E.contents errors.new) (line_of event)) }
{
    match event {
        Event::Byte(byte) => output.write_all(&[byte]),
        Event::PortRead(object, offset) => writeln!(errors, "read {object} {offset}"),
        Event::PortWrite(object, offset, value) => {
            writeln!(errors, "write {object} {offset} {value}")
        }
        Event::Exit(_) => output.flush(),
    }
}
