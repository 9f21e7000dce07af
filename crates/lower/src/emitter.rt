ghost use Rattle.std.specs.Prelude.{◌≡◌, OnOk, Ok};
ghost use Rattle.std.specs.Prelude.{ℕ, List, option_map};
ghost use Rattle.c_types.specs.declared.type_ref.Row.{Row};
ghost use Rattle.c_types.specs.Types.{CType, ty_of};
ghost use Rattle.c_types.specs.Table.{type_at};
ghost use Rattle.mid_code.specs.declared.program.RegisterKind.TheVariants as kind_is;
ghost use Rattle.lower.specs.Drafts.{code_of};
ghost use Rattle.lower.specs.Emitting.{new as new_register, temporary as temporary_of, home_of, settles};
ghost use Rattle.lower.specs.Expressions.{constant_to, converts, computed as computed_by};
ghost use Rattle.lower.specs.SoFar.{Leads, IsHere, landed};
ghost use Rattle.lower.specs.Jumps.{LandsHere};
ghost use Rattle.lower.specs.Emits.{Emits, itself, nothing, emits_mid};

use crate::allotted::Allotted;
use crate::code::Code;
use crate::refusal::LowerRefusal;
use mid_code::{Mid, RegisterKind};

/// What a function is lowered to so far.
#[derive(Drop)]
pub(crate) struct Emitter {
    pub(crate) allotted: Allotted,
    pub(crate) code: Code,
}

/// A place whose register is known.
#[derive(Clone, Copy)]
pub(crate) enum Located {
    /// That of a local.
    Held(u16),
    /// That of an address, through an lvalue that may be volatile, at a line.
    Stored(bool, u32, u16),
}

/// The registers of what changes: the old value, and what becomes the new one.
#[derive(Clone, Copy)]
pub(crate) struct Change {
    pub(crate) old: u16,
    pub(crate) changed: u16,
}

impl Emitter {
    /// An instruction at a line.
    pub(crate) fn emit(&mut self, line: u32, mid: Mid) -> Result<(), LowerRefusal>
        ensures { (rows : List Row) → Emits nothing rows self.old self.new result (emits_mid line mid) }
    {
        self.code.emit(line, mid)?;
        Ok(())
    }

    /// The place of the next instruction.
    pub(crate) fn here(&self) -> u32
        ensures { (leads : List Leads) → IsHere result (code_of self.now.code leads) }
    {
        self.code.here()
    }

    /// The jump at a place leads here.
    pub(crate) fn lead_here(&mut self, at: u32)
        ensures allotted { self.new.allotted ≡ self.old.allotted }
        ensures led { LandsHere at (code_of self.old.code) (code_of self.new.code) }
    {
        let place = self.code.here();
        self.code.lead(at, place);
    }

    /// A new register for an address.
    pub(crate) fn new_address(&mut self, line: u32) -> Result<u16, LowerRefusal>
        ensures { (rows : List Row) → Emits itself rows self.old self.new result (new_register kind_is.Address line) }
    {
        self.allotted.register(RegisterKind::Address, line)
    }

    /// A new register.
    pub(crate) fn register(&mut self, kind: RegisterKind, line: u32) -> Result<u16, LowerRefusal>
        ensures { (rows : List Row) → Emits itself rows self.old self.new result (new_register kind line) }
    {
        self.allotted.register(kind, line)
    }

    /// A temporary, which is allotted when it is first used.
    pub(crate) fn temporary(&mut self, k: usize, line: u32) -> Result<u16, LowerRefusal>
        ensures { (rows : List Row) → Emits itself rows self.old self.new result (temporary_of k line) }
    {
        self.allotted.temporary(k, line)
    }

    /// The register of a local.
    pub(crate) fn home(&self, number: usize) -> u16
        ensures { (rows : List Row) → Emits itself rows self.now self.now (Ok result) (home_of number) }
    {
        self.allotted.home(number)
    }

    /// A local gets its register.
    pub(crate) fn settle(&mut self, number: usize, register: u16)
        ensures { (rows : List Row) → Emits nothing rows self.old self.new (Ok tt) (settles number register) }
    {
        self.allotted.settle(number, register);
    }
}
