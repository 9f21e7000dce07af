ghost use Rattle.mid_code.specs.declared.program.MidProgram.{MidProgram};
ghost use Rattle.mid_code.specs.Valid.{IsValid};
ghost use Rattle.mid_code.specs.WellFormed.{IsWellFormed};
ghost use Rattle.std.specs.Prelude.{◌≡◌, ◌≤◌};
ghost use Rattle.mid_code.specs.Classes.{SharedProgram, instruction_sites};
ghost use Rattle.mid_code.specs.Pairs.{HasSites};
ghost use Rattle.mid_code.specs.Closed.{AreClosed, everything_shared};
ghost use Rattle.mid_code.specs.Versions.{leading, trailing};
ghost use Rattle.mid_code.specs.CodeLaws.{HasGroups, HasOneOfEach};

/// A law: the valid programs are those that are well formed.
pub fn valid_is_well_formed()
    ensures formed { (program : MidProgram) → IsValid program → IsWellFormed program }
    ensures valid { (program : MidProgram) → IsWellFormed program → IsValid program }
{}

/// A law: each place of a version is one of the group of one instruction, and each group has from
/// 1 to 20.
pub fn versions_have_groups()
    ensures leading { HasGroups leading }
    ensures trailing { HasGroups trailing }
{}

/// A law: all `Address` registers and all objects of a valid program are a set that can be shared.
pub fn everything_can_be_shared()
    ensures { (program : MidProgram) → IsValid program → AreClosed (everything_shared program) }
{}

/// A law: no two instructions or wrappers have one site.
pub fn sites_are_apart()
    ensures { (p : SharedProgram) → IsValid p.program → HasOneOfEach p }
{}

/// A law: 65,535 instructions with sites are too many where the main file has another function than
/// `main`, since its wrapper has a site too.
pub fn wrappers_have_sites()
    ensures { (p : SharedProgram) → instruction_sites p ≡ 65535 → 2 ≤ p.program.main_functions → HasSites p → ⊥ }
{}
