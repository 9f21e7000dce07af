ghost use Rattle.std.specs.Prelude.{◌≡◌, suc, nat_le, length};
ghost use Rattle.c_types.specs.Types.{CType};
ghost use Rattle.c_types.specs.Table.{Stands};
ghost use Rattle.typing_rules.specs.Known as known;
ghost use Rattle.typing_rules.specs.Limits.{most_functions, most_types};
ghost use Rattle.typing_rules.specs.Checking.{makes, tests};
ghost use Rattle.typing_rules.specs.OrderedParts as ordered;
ghost use Rattle.typing_rules.specs.declared.refusal.TypeRefusal.TheVariants as refusal;
ghost use Rattle.typing_rules.specs.declared.refusal.Size.TheVariants as size;
ghost use Rattle.c_known.specs.Gives.{Gives, IsDone};

use crate::known::Known;
use crate::refusals::needs;
use c_types::TypeRef;
use typing_rules::{Size, TypeRefusal};

const MOST_STATIC_CELLS: u64 = 1_048_576;

const MOST_FUNCTIONS: u32 = 4_096;

const MOST_TYPES: usize = 65_535;

impl Known {
    /// A file has room for more static cells.
    pub fn count_cells(&mut self, line: u32, cells: u32) -> Result<(), TypeRefusal>
        ensures { Gives IsDone self.old self.new result (ordered.counted line cells) }
    {
        let total = u64::from(self.static_cells) + u64::from(cells);
        if total <= MOST_STATIC_CELLS {
            self.static_cells = total as u32;
            Ok(())
        } else {
            Err(TypeRefusal::TooLarge(line, Size::Statics))
        }
    }

    /// A file has room for one more function.
    pub fn has_room_for_function(&self, line: u32) -> Result<(), TypeRefusal>
        ensures { Gives IsDone self.now self.now result
            (tests (λ k. nat_le (suc k.functions) most_functions) (refusal.TooLarge line size.Functions)) }
    {
        needs(
            self.functions < MOST_FUNCTIONS,
            TypeRefusal::TooLarge(line, Size::Functions),
        )
    }

    /// The type of a function that is defined or called through a pointer.
    pub fn count_type(&mut self, line: u32, of: TypeRef) -> Result<(), TypeRefusal>
        ensures { (type : CType) → Stands self.old.types of type → Gives IsDone self.old self.new result (ordered.counted_type line type) }
    {
        self.add_type(of)?;
        self.has_room_for_types(line)
    }

    /// The type of a function, which is added where it is new.
    fn add_type(&mut self, of: TypeRef) -> Result<(), TypeRefusal>
        ensures { (type : CType) → Stands self.old.types of type → Gives IsDone self.old self.new result (makes (known.with_type type)) }
    {
        let of = self.types.reference(of);
        match self.function_types.insert(of) {
            Ok(_) => Ok(()),
            Err(_) => Err(TypeRefusal::Memory),
        }
    }

    /// There are no more types of functions than a program may have.
    fn has_room_for_types(&self, line: u32) -> Result<(), TypeRefusal>
        ensures { Gives IsDone self.now self.now result
            (tests (λ k. nat_le (length k.types) most_types) (refusal.TooLarge line size.Types)) }
    {
        needs(
            self.function_types.len() <= MOST_TYPES,
            TypeRefusal::TooLarge(line, Size::Types),
        )
    }
}
