ghost use Rattle.std.specs.Prelude.{◌≡◌, ℕ, List};
ghost use Rattle.c_types.specs.declared.type_ref.Row.{Row};
ghost use Rattle.mid_code.specs.declared.mid.Mid.TheVariants as mid_of;
ghost use Rattle.lower.specs.Expressions.{load_of as load_from, store_of as store_to, fetches, puts, assigned, object_in, local_in};
ghost use Rattle.lower.specs.Emits.{Emits, itself, nothing, rows_of, types_of, located_view};

use crate::emitter::{Emitter, Located};
use crate::inside::Inside;
use crate::refusal::LowerRefusal;
use c_types::TypeRef;
use mid_code::Mid;

/// The instruction that reads a place, for a value at a line, with its line.
fn load_of(located: Located, line: u32, target: u16) -> (u32, Mid)
    ensures { result ≡ load_from (located_view located) line target }
{
    match located {
        Located::Held(source) => (line, Mid::Move { target, source }),
        Located::Stored(true, at, pointer) => (at, Mid::VLoad { target, pointer }),
        Located::Stored(false, at, pointer) => (at, Mid::Load { target, pointer }),
    }
}

/// The one that writes it.
fn store_of(located: Located, line: u32, source: u16) -> (u32, Mid)
    ensures { result ≡ store_to (located_view located) line source }
{
    match located {
        Located::Held(target) => (line, Mid::Move { target, source }),
        Located::Stored(true, at, pointer) => (at, Mid::VStore { pointer, source }),
        Located::Stored(false, at, pointer) => (at, Mid::Store { pointer, source }),
    }
}

impl Emitter {
    /// What a place holds (C11 6.3.2.1p2).
    pub(crate) fn fetch(
        &mut self,
        at: Inside,
        line: u32,
        of: TypeRef,
        k: usize,
        located: Located,
    ) -> Result<u16, LowerRefusal>
        ensures { Emits itself (rows_of at.entry) self.old self.new result
            (fetches line (types_of at.entry of) k (located_view located)) }
    {
        let target = self.target_for(at, of, k, line)?;
        let (told, mid) = load_of(located, line, target);
        self.emit(told, mid)?;
        Ok(target)
    }

    /// A place takes a value.
    pub(crate) fn put(
        &mut self,
        line: u32,
        located: Located,
        source: u16,
    ) -> Result<(), LowerRefusal>
        ensures { (rows : List Row) → Emits nothing rows self.old self.new result (puts line (located_view located) source) }
    {
        let (told, mid) = store_of(located, line, source);
        self.emit(told, mid)
    }

    /// `l = e` behind `e` (C11 6.5.16p3).
    pub(crate) fn assign(
        &mut self,
        line: u32,
        located: Located,
        source: u16,
    ) -> Result<u16, LowerRefusal>
        ensures { (rows : List Row) → Emits itself rows self.old self.new result (assigned line (located_view located) source) }
    {
        self.put(line, located, source)?;
        Ok(source)
    }

    /// The address of a static object, by its number.
    pub(crate) fn object_address(&mut self, object: u32, line: u32) -> Result<u16, LowerRefusal>
        ensures { (rows : List Row) → Emits itself rows self.old self.new result (object_in object line) }
    {
        let target = self.new_address(line)?;
        self.emit(line, Mid::GlobAddr { target, object })?;
        Ok(target)
    }

    /// The address of a local in memory.
    pub(crate) fn local_address(&mut self, number: usize, line: u32) -> Result<u16, LowerRefusal>
        ensures { (rows : List Row) → Emits itself rows self.old self.new result (local_in number line) }
    {
        let source = self.home(number);
        let target = self.new_address(line)?;
        self.emit(line, Mid::Move { target, source })?;
        Ok(target)
    }
}
