//! The law: the function does nothing, and its contract is proved.

ghost use Rattle.std.specs.Prelude.{◌≤◌, Option};
ghost use Rattle.srmt_base.specs.declared.part.Part.{Part};
ghost use Rattle.srmt_base.specs.Statics.{static_cells};
ghost use Rattle.c_typed.specs.Statements.{Program};
ghost use Rattle.source_meaning.specs.Start.{objects_at_start};
ghost use Rattle.typing_rules.specs.SourceUnits.{Unit as SourceUnit};
ghost use Rattle.typing_rules.specs.TypingUnits.{Types};

/// The static objects and texts of each file of a typed program have at most 1,048,576 cells in
/// all, so they have room in each part where so many cells may live.
pub fn typed_programs_have_room()
    ensures { (main : SourceUnit) (binary : Option SourceUnit) (program : Program) → Types main binary program
        → (part : Part) → static_cells (objects_at_start program part) ≤ 1048576 }
{}
