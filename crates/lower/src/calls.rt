ghost use Rattle.std.specs.Prelude.{◌≡◌, ℕ, List};
ghost use Rattle.c_types.specs.declared.type_ref.Row.{Row};
ghost use Rattle.c_types.specs.Types.{target_of};
ghost use Rattle.mid_code.specs.Registers.{registers_list};
ghost use Rattle.lower.specs.Emitting.{type_number as number_of_type};
ghost use Rattle.lower.specs.Expressions.{called, called_through, byte_put, byte_got, left_by};
ghost use Rattle.lower.specs.Emits.{Emits, itself, rows_of, types_of};

use crate::emitter::Emitter;
use crate::inside::Inside;
use crate::refusal::LowerRefusal;
use c_types::TypeRef;
use mid_code::{Mid, Registers};
use srmt_base::Ty;

impl Emitter {
    /// The number of a type of functions, the first time the next one.
    pub(crate) fn type_number(&mut self, at: Inside, of: TypeRef) -> Result<u16, LowerRefusal>
        ensures { Emits itself (rows_of at.entry) self.old self.new result (number_of_type (types_of at.entry of)) }
    {
        self.allotted.type_number(at.types(), of)
    }

    /// A call of a function by its number, behind its arguments (C11 6.5.2.2).
    pub(crate) fn call(
        &mut self,
        inside: Inside,
        of: TypeRef,
        line: u32,
        at: u32,
        function: u16,
        k: usize,
        args: Registers,
    ) -> Result<u16, LowerRefusal>
        ensures { Emits itself (rows_of inside.entry) self.old self.new result
            (called (types_of inside.entry of) line at function k (registers_list args)) }
    {
        let target = self.target_for(inside, of, k, line)?;
        self.emit(
            at,
            Mid::Call {
                target,
                function,
                args,
            },
        )?;
        Ok(target)
    }

    /// A call of the function to which a value of a type points.
    pub(crate) fn call_through(
        &mut self,
        inside: Inside,
        of: TypeRef,
        pointer: TypeRef,
        line: u32,
        at: u32,
        k: usize,
        callee: u16,
        args: Registers,
    ) -> Result<u16, LowerRefusal>
        ensures { Emits itself (rows_of inside.entry) self.old self.new result
            (called_through (types_of inside.entry of) (target_of (types_of inside.entry pointer)).type line at k callee (registers_list args)) }
    {
        let target = self.target_for(inside, of, k, line)?;
        let ty = self.type_number(inside, inside.types().target(pointer).target)?;
        self.emit(
            at,
            Mid::CallPtr {
                target,
                callee,
                ty,
                args,
            },
        )?;
        Ok(target)
    }

    /// `putchar`, whose result is the byte as an `unsigned char` (C11 7.21.7.8).
    pub(crate) fn put_byte(&mut self, line: u32, at: u32, source: u16) -> Result<u16, LowerRefusal>
        ensures { (rows : List Row) → Emits itself rows self.old self.new result (byte_put line at source) }
    {
        self.emit(at, Mid::Put { source })?;
        self.converted(line, Ty::Int, Ty::UChar, source)
    }

    /// `getchar` (C11 7.21.7.6).
    pub(crate) fn get_byte(&mut self, line: u32, at: u32, k: usize) -> Result<u16, LowerRefusal>
        ensures { (rows : List Row) → Emits itself rows self.old self.new result (byte_got line at k) }
    {
        let target = self.temporary(k, line)?;
        self.emit(at, Mid::Get { target })?;
        Ok(target)
    }

    /// `exit` (C11 7.22.4.4). It has no value, but has a register as each.
    pub(crate) fn exit(&mut self, at: u32, source: u16) -> Result<u16, LowerRefusal>
        ensures { (rows : List Row) → Emits itself rows self.old self.new result (left_by at source) }
    {
        self.emit(at, Mid::Exit { source })?;
        Ok(source)
    }
}
