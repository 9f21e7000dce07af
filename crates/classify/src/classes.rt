ghost use Rattle.std.specs.Prelude.{◌≡◌, ◌+◌, ◌<◌, ◌≤◌, nat_lt, All, length, sum_by, take, IfOk, IfErr, OnOk};
ghost use Rattle.mid_code.specs.Valid.{IsValid};
ghost use Rattle.mid_code.specs.Pairs.{IsOfFirstForm};
ghost use Rattle.mid_code.specs.Closed.{everything_shared};
ghost use Rattle.mid_code.specs.Classes.{shared_program, sharing_of, sharings, sharings_of, site_count, classes_from, classes_of, protected_functions, all_sites};
ghost use Rattle.classify.specs.declared.refusal.ClassRefusal.TheVariants.{TooManySites};
ghost use Rattle.classify.specs.Sites.{HasRows, sites_in};

use crate::instruction::class_of;
use crate::refusal::ClassRefusal;
use mid_code::{Class, Classed, MidFunction, MidLine, MidProgram, Shared, everything_shared};
use sqlite_items::Items;
use std::alloc::{AllocError, Global};

/// The most sites of a program.
const MOST_SITES: usize = 65_535;

/// A program with the classes of its instructions, where everything is shared.
pub fn classify(alloc: Global, program: MidProgram) -> Result<Classed, ClassRefusal>
    requires valid { IsValid program }
    requires first_form { All (λ f. All (λ l. IsOfFirstForm l.mid) f.code) (protected_functions program) }
    ensures classed { IfOk result (λ classed. classed ≡ everything_shared program) }
    ensures few { OnOk result (all_sites (everything_shared program) ≤ 65535) }
    ensures many { IfErr result (λ refusal. refusal ≡ TooManySites → 65535 < all_sites (everything_shared program)) }
{
    let shared = everything_shared(alloc, &program)?;
    if has_many_sites(&program, shared.as_slice()) {
        return Err(ClassRefusal::TooManySites);
    }
    let classes = all_classes(alloc, &program, shared.as_slice())?;
    Ok(Classed::new(program, shared, classes))
}

// The functions of the main file.
fn protected_functions(program: &MidProgram) -> &[MidFunction]
    requires { program.now.main_functions ≤ length program.now.functions }
    ensures { result.now ≡ protected_functions program.now }
{
    &program.functions.as_slice()[..usize::from(program.main_functions)]
}

// Whether instructions and wrappers have more sites than there are.
fn has_many_sites(program: &MidProgram, shared: &[Shared]) -> bool
    requires { HasRows (shared_program program.now shared.now) }
    ensures { result ≡ nat_lt 65535 (all_sites (shared_program program.now shared.now)) }
{
    let functions = protected_functions(program);
    let mut sites = usize::from(program.main_functions) - 1;
    for (index, function) in functions.iter().enumerate() {
        let code = function.code.as_slice();
        sites += site_count(program.main_functions, &shared[index], code);
        if MOST_SITES < sites {
            return true;
        }
    }
    false
}

// How many sites the instructions of a function have.
fn site_count(mains: u16, shared: &Shared, code: &[MidLine]) -> usize
    ensures count { result ≡ site_count (sharings mains shared.now 0 code.now) }
    ensures few { result ≤ length code.now }
{
    let mut count: usize = 0;
    for (place, line) in code.iter().enumerate() {
        count += usize::from(sites_in(class_of(mains, shared, place, &line.mid, 0)));
    }
    count
}

// The classes of the instructions, by function.
fn all_classes(
    alloc: Global,
    program: &MidProgram,
    shared: &[Shared],
) -> Result<Items<Items<Class>>, AllocError>
    requires rows { HasRows (shared_program program.now shared.now) }
    requires sites { all_sites (shared_program program.now shared.now) ≤ 65535 }
    ensures { IfOk result (λ classes. classes ≡ classes_of (shared_program program.now shared.now)) }
{
    let functions = protected_functions(program);
    let mut rows = Vec::with_capacity(alloc, shared.len())?;
    let mut given = 0;
    for (index, function) in functions.iter().enumerate() {
        let code = function.code.as_slice();
        let row = classes(
            alloc,
            program.main_functions,
            &shared[index],
            code,
            &mut given,
        )?;
        rows.push_reserved(row);
    }
    Ok(Items::from_vec(rows))
}

// The classes of the instructions of a function, where so many sites are given before, and then behind it.
fn classes(
    alloc: Global,
    mains: u16,
    shared: &Shared,
    code: &[MidLine],
    given: &mut u16,
) -> Result<Items<Class>, AllocError>
    requires { given.old + site_count (sharings mains shared.now 0 code.now) ≤ 65535 }
    ensures classes { IfOk result (λ classes. classes ≡ classes_from (given.old + 1) (sharings mains shared.now 0 code.now)) }
    ensures given { OnOk result (given.new ≡ given.old + site_count (sharings mains shared.now 0 code.now)) }
{
    let mut row = Vec::with_capacity(alloc, code.len())?;
    for (place, line) in code.iter().enumerate() {
        let class = class_of(mains, shared, place, &line.mid, *given);
        *given += sites_in(class);
        row.push_reserved(class);
    }
    Ok(Items::from_vec(row))
}

// How many sites an instruction of a class takes.
fn sites_in(class: Class) -> u16
    ensures { result ≡ sites_in class }
{
    match class {
        Class::Repeatable => 0,
        Class::NonRepeatable(_) | Class::FailStop(_) => 1,
    }
}
