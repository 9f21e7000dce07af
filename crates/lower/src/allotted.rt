ghost use Rattle.std.specs.Prelude.{◌≡◌, slice_index, slice_set, replicate, List, [], IfOk};
ghost use Rattle.c_types.specs.declared.type_ref.Row.{Row};
ghost use Rattle.c_types.specs.Types.{CType};
ghost use Rattle.c_types.specs.Table.{type_at};
ghost use Rattle.lower.specs.Emitting.{new as new_register, temporary as temporary_of, type_number as type_number_of};
ghost use Rattle.lower.specs.Emits.{Allots, itself};

use crate::inside::MOST_REGISTERS;
use crate::refusal::LowerRefusal;
use c_types::{TypeRef, Types};
use indexmap::IndexSet;
use mid_code::RegisterKind;
use std::alloc::{AllocError, Global};

/// What is allotted so far in a function, and the types of functions of the program.
#[derive(Drop)]
pub(crate) struct Allotted {
    /// The kinds of the registers of the function.
    pub(crate) kinds: Vec<RegisterKind>,
    /// The registers of its temporaries.
    temporaries: Vec<u16>,
    /// Those of its locals, by their number.
    homes: Vec<u16>,
    pub(crate) types: IndexSet<TypeRef>,
}

impl Allotted {
    /// Nothing, for a function of so many locals.
    pub(crate) fn new(
        alloc: Global,
        locals: usize,
        types: IndexSet<TypeRef>,
    ) -> Result<Self, AllocError>
        ensures kinds { IfOk result (λ a. a.kinds.items ≡ []) }
        ensures temporaries { IfOk result (λ a. a.temporaries.items ≡ []) }
        ensures homes { IfOk result (λ a. a.homes.items ≡ replicate locals 0) }
        ensures types { IfOk result (λ a. a.types.keys ≡ types.keys) }
    {
        Ok(Allotted {
            kinds: Vec::new(alloc),
            temporaries: Vec::new(alloc),
            homes: vec![in alloc; 0; locals]?,
            types,
        })
    }

    /// One register more, which an expression or a name at the line needs.
    pub(crate) fn register(&mut self, kind: RegisterKind, line: u32) -> Result<u16, LowerRefusal>
        ensures { (rows : List Row) → Allots itself rows self.old self.new result (new_register kind line) }
    {
        let number = self.kinds.len();
        if number >= MOST_REGISTERS {
            return Err(LowerRefusal::TooManyRegisters(line));
        }
        self.kinds.push(kind)?;
        Ok(number as u16)
    }

    /// A temporary, which is allotted when it is first used.
    pub(crate) fn temporary(&mut self, k: usize, line: u32) -> Result<u16, LowerRefusal>
        ensures { (rows : List Row) → Allots itself rows self.old self.new result (temporary_of k line) }
    {
        if let Some(register) = self.temporaries.get(k) {
            return Ok(*register);
        }
        let register = self.register(RegisterKind::Number, line)?;
        self.temporaries.push(register)?;
        Ok(register)
    }

    /// The register of a local.
    pub(crate) fn home(&self, number: usize) -> u16
        ensures { result ≡ slice_index self.now.homes.items number }
    {
        self.homes.get(number).copied().unwrap_or(0)
    }

    /// A local gets its register.
    pub(crate) fn settle(&mut self, number: usize, register: u16)
        ensures homes { self.new.homes.items ≡ slice_set self.old.homes.items number register }
        ensures kinds { self.new.kinds.items ≡ self.old.kinds.items }
        ensures temporaries { self.new.temporaries.items ≡ self.old.temporaries.items }
        ensures types { self.new.types.keys ≡ self.old.types.keys }
    {
        if let Some(home) = self.homes.get_mut(number) {
            *home = register;
        }
    }

    /// The number of a type of functions, the first time the next one.
    pub(crate) fn type_number(&mut self, types: &Types, of: TypeRef) -> Result<u16, LowerRefusal>
        ensures { Allots itself types.now self.old self.new result (type_number_of (type_at types.now of)) }
    {
        let (number, _) = self.types.insert_full(types.reference(of))?;
        if number > 65_535 {
            return Err(LowerRefusal::Memory);
        }
        Ok(number as u16)
    }
}
