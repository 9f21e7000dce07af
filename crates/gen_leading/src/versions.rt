ghost use Rattle.std.specs.Prelude.{◌≡◌, ◌≤◌, length, IfOk};
ghost use Rattle.mid_code.specs.Versions.{leading, version_of, versions_from, groups_from, leading_versions};
ghost use Rattle.version_code.specs.Places.{ArePlaces, moved_by};
ghost use Rattle.version_code.specs.Rows.{HasClasses, HaveClasses};

use crate::exchange::{add_group, size};
use mid_code::{Class, Classed, MidFunction, MidLine, Version};
use sqlite_items::Items;
use std::alloc::{AllocError, Global};
use version_code::Lines;

/// The leading version of each function of the main file.
pub fn generate(alloc: Global, program: &Classed) -> Result<Items<Version>, AllocError>
    ensures { IfOk result (λ versions. versions ≡ leading_versions program.now) }
{
    let code = program.program();
    let functions = &code.functions.as_slice()[..usize::from(code.main_functions)];
    versions(alloc, program.classes().as_slice(), functions)
}

// The versions of functions, by the classes of their instructions.
fn versions(
    alloc: Global,
    classes: &[Items<Class>],
    functions: &[MidFunction],
) -> Result<Items<Version>, AllocError>
    requires { HaveClasses classes.now functions.now }
    ensures { IfOk result (λ versions. versions ≡ versions_from leading classes.now functions.now) }
{
    let mut versions = Vec::with_capacity(alloc, functions.len())?;
    for (index, function) in functions.iter().enumerate() {
        let version = version(alloc, classes[index].as_slice(), function)?;
        versions.push_reserved(version);
    }
    Ok(Items::from_vec(versions))
}

/// The version of a function, by the classes of its instructions.
pub fn version(
    alloc: Global,
    classes: &[Class],
    function: &MidFunction,
) -> Result<Version, AllocError>
    requires { HasClasses classes.now function.now }
    ensures { IfOk result (λ version. version ≡ version_of leading classes.now function.now) }
{
    let code = function.code.as_slice();
    let starts = starts(alloc, classes, code)?;
    groups(alloc, classes, code, starts.as_slice())
}

// The places at which the groups begin, and that at which the last ends.
fn starts(alloc: Global, classes: &[Class], code: &[MidLine]) -> Result<Vec<u32>, AllocError>
    requires classes { length classes.now ≡ length code.now }
    requires few { length code.now ≤ 65535 }
    ensures { IfOk result (λ starts. ArePlaces leading classes.now code.now starts.items) }
{
    let mut starts = Vec::with_capacity(alloc, code.len() + 1)?;
    let mut start: u32 = 0;
    starts.push_reserved(start);
    for (index, line) in code.iter().enumerate() {
        start += size(classes[index], &line.mid);
        starts.push_reserved(start);
    }
    Ok(starts)
}

// The groups of the instructions, one after another.
fn groups(
    alloc: Global,
    classes: &[Class],
    code: &[MidLine],
    starts: &[u32],
) -> Result<Version, AllocError>
    requires classes { length classes.now ≡ length code.now }
    requires few { length code.now ≤ 65535 }
    requires places { ArePlaces leading classes.now code.now starts.now }
    ensures { IfOk result (λ version. version
        ≡ record { code = groups_from leading (moved_by starts.now) 0 classes.now code.now }) }
{
    let mut lines = Lines::with_room(alloc, starts[code.len()] as usize)?;
    for (index, line) in code.iter().enumerate() {
        add_group(&mut lines, starts, index as u32, classes[index], line);
    }
    Ok(lines.into_version())
}
