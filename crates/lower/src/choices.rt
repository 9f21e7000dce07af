ghost use Rattle.std.specs.Prelude.{◌≡◌, ℕ, List, option_map};
ghost use Rattle.c_types.specs.declared.type_ref.Row.{Row};
ghost use Rattle.lower.specs.Expressions.{deciding as deciding_by, undecided as undecided_by, tests_second, digit, joins_first, joins_second, moved_to, moved_to_new, constant_to};
ghost use Rattle.lower.specs.Emits.{Emits, itself, nothing, rows_of, types_of, emits_mid};
ghost use Rattle.lower.specs.Jumps.{Waits, Turns};

use crate::emitter::Emitter;
use crate::inside::Inside;
use crate::refusal::LowerRefusal;
use c_types::TypeRef;
use mid_code::Mid;

/// A jump to a place where a value decides `&&` (it is 0) or `||` (it is not).
pub(crate) fn deciding(is_or: bool, source: u16, place: u32) -> Mid
    ensures { result ≡ deciding_by is_or source place }
{
    if is_or {
        Mid::JumpN { source, place }
    } else {
        Mid::JumpZ { source, place }
    }
}

impl Emitter {
    /// A jump that waits for the place to which it leads; its own place.
    pub(crate) fn jump_from(
        &mut self,
        line: u32,
        is_or: bool,
        source: u16,
    ) -> Result<u32, LowerRefusal>
        ensures { Waits line (deciding_by is_or source) self.old self.new result }
    {
        let at = self.here();
        self.code.emit(line, deciding(is_or, source, 0))?;
        Ok(at)
    }

    /// The first of two ways ends, and jumps over the other, which begins here; the place of that jump.
    pub(crate) fn turn(&mut self, line: u32, at: u32) -> Result<u32, LowerRefusal>
        ensures { Turns line at self.old self.new result }
    {
        let over = self.here();
        self.code.emit(line, Mid::Jump { place: 0 })?;
        self.lead_here(at);
        Ok(over)
    }

    /// Neither operand of `&&` or `||` decides: the other truth value, and the constant behind is jumped over.
    fn undecided(&mut self, is_or: bool, line: u32, k: usize) -> Result<u16, LowerRefusal>
        ensures { (rows : List Row) → Emits itself rows self.old self.new result (undecided_by is_or line k) }
    {
        let target = self.temporary(k, line)?;
        let value = u64::from(!is_or);
        self.emit(line, Mid::Const { target, value })?;
        let place = self.here() + 2;
        self.emit(line, Mid::Jump { place })?;
        Ok(target)
    }

    /// The second operand of `&&` or `||` is done: it decides, or neither does (C11 6.5.13, 6.5.14).
    pub(crate) fn test_second(
        &mut self,
        is_or: bool,
        line: u32,
        k: usize,
        source: u16,
    ) -> Result<u16, LowerRefusal>
        ensures { (rows : List Row) → Emits itself rows self.old self.new result (tests_second is_or line k source) }
    {
        let at = self.jump_from(line, is_or, source)?;
        let target = self.undecided(is_or, line, k)?;
        self.lead_here(at);
        Ok(target)
    }

    /// A value goes to a register.
    fn move_to(&mut self, line: u32, target: u16, source: u16) -> Result<u16, LowerRefusal>
        ensures { (rows : List Row) → Emits itself rows self.old self.new result (moved_to line target source) }
    {
        self.emit(line, Mid::Move { target, source })?;
        Ok(target)
    }

    /// The second operand of `?:` is done: an address goes to one register for both.
    pub(crate) fn join_first(
        &mut self,
        at: Inside,
        of: TypeRef,
        line: u32,
        source: u16,
    ) -> Result<u16, LowerRefusal>
        ensures { Emits itself (rows_of at.entry) self.old self.new result (joins_first (types_of at.entry of) line source) }
    {
        if !at.is_address(of) {
            return Ok(source);
        }
        let target = self.new_address(line)?;
        self.move_to(line, target, source)
    }

    /// The third is done: an address goes to the same register.
    pub(crate) fn join_second(
        &mut self,
        at: Inside,
        of: TypeRef,
        line: u32,
        target: u16,
        source: u16,
    ) -> Result<u16, LowerRefusal>
        ensures { Emits itself (rows_of at.entry) self.old self.new result (joins_second (types_of at.entry of) line target source) }
    {
        if !at.is_address(of) {
            return Ok(target);
        }
        self.move_to(line, target, source)
    }
}
