ghost use Rattle.std.specs.Prelude.{◌≡◌, ℕ, ◌+◌, ◌<◌, ◌≤◌, [], ◌∷◌, ◌++◌, map, length, All, IfOk, OnOk};
ghost use Rattle.mid_code.specs.Classes.{site_of, sharing_of, sharings, sites_of, site_count, class_of, classes_from, classes_of, shared_program};
ghost use Rattle.mid_code.specs.Closed.{everything_shared};
ghost use Rattle.mid_code.specs.Pairs.{IsOfFirstForm, HasSites};
ghost use Rattle.mid_code.specs.Versions.{leading, trailing, group_of, groups_from, with_line, leading_versions, trailing_versions};
ghost use Rattle.first_form.specs.Pairing.{leading_echo, trailing_echo};

use mid_code::{
    Class, Classed, Mid, MidLine, MidProgram, Operands, Pair, Shared, Version, VersionLine,
    VersionOp, everything_shared,
};
use sqlite_items::Items;
use srmt_base::{RequestKind, Site};
use std::alloc::{AllocError, Global};

/// The pair of a program, all of which is shared: the classes of its instructions, and the versions
/// for the two sides.
pub fn pair_of(alloc: Global, program: MidProgram) -> Result<Pair, AllocError>
    requires { HasSites (everything_shared program) }
    ensures { IfOk result (λ pair. pair ≡ everything_shared program) }
{
    let shared = everything_shared(alloc, &program)?;
    let parts = program_parts(alloc, &program, shared.as_slice())?;
    let classed = Classed::new(program, shared, parts.classes);
    Ok(Pair::new(classed, parts.leading, parts.trailing))
}

/// How many lines an instruction of the first form becomes at most, on either side.
const LONGEST_GROUP: usize = 3;

// The classes and the versions of the functions of the main file, in order.
#[derive(Drop)]
struct ProgramParts {
    classes: Items<Items<Class>>,
    leading: Items<Version>,
    trailing: Items<Version>,
}

// The classes and the versions of one function, and the first site behind it.
#[derive(Drop)]
struct FunctionParts {
    classes: Vec<Class>,
    leading: Vec<VersionLine>,
    trailing: Vec<VersionLine>,
    next: u32,
}

fn program_parts(
    alloc: Global,
    program: &MidProgram,
    shared: &[Shared],
) -> Result<ProgramParts, AllocError>
    requires { HasSites (shared_program program.now shared.now) }
    ensures classes { IfOk result (λ parts. parts.classes ≡ classes_of (shared_program program.now shared.now)) }
    ensures leading { IfOk result (λ parts. parts.leading ≡ leading_versions (shared_program program.now shared.now)) }
    ensures trailing { IfOk result (λ parts. parts.trailing ≡ trailing_versions (shared_program program.now shared.now)) }
{
    let mains = program.main_functions;
    let functions = &program.functions.as_slice()[..usize::from(mains)];
    let mut classes = Items::new(alloc);
    let mut leading = Items::new(alloc);
    let mut trailing = Items::new(alloc);
    let mut site = 1;
    for (index, function) in functions.iter().enumerate() {
        let parts = function_parts(alloc, mains, &shared[index], function.code.as_slice(), site)?;
        classes.push(Items::from_vec(parts.classes))?;
        leading.push(Version {
            code: Items::from_vec(parts.leading),
        })?;
        trailing.push(Version {
            code: Items::from_vec(parts.trailing),
        })?;
        site = parts.next;
    }
    Ok(ProgramParts {
        classes,
        leading,
        trailing,
    })
}

fn function_parts(
    alloc: Global,
    mains: u16,
    shared: &Shared,
    code: &[MidLine],
    first: u32,
) -> Result<FunctionParts, AllocError>
    requires plain { All (λ l. IsOfFirstForm l.mid) code.now }
    requires sites { first + site_count (sharings mains shared.now 0 code.now) ≤ 65536 }
    ensures classes { IfOk result (λ parts. parts.classes.items ≡ classes_from first (sharings mains shared.now 0 code.now)) }
    ensures leading { IfOk result (λ parts. (moved : ℕ → ℕ) → parts.leading.items
        ≡ groups_from leading moved 0 (classes_from first (sharings mains shared.now 0 code.now)) code.now) }
    ensures trailing { IfOk result (λ parts. (moved : ℕ → ℕ) → parts.trailing.items
        ≡ groups_from trailing moved 0 (classes_from first (sharings mains shared.now 0 code.now)) code.now) }
    ensures next { IfOk result (λ parts. parts.next ≡ first + site_count (sharings mains shared.now 0 code.now)) }
{
    let mut parts = FunctionParts {
        classes: Vec::with_capacity(alloc, code.len())?,
        leading: Vec::with_capacity(alloc, code.len().saturating_mul(LONGEST_GROUP))?,
        trailing: Vec::with_capacity(alloc, code.len().saturating_mul(LONGEST_GROUP))?,
        next: first,
    };
    for (place, line) in code.iter().enumerate() {
        add_line(mains, shared, place, *line, &mut parts)?;
    }
    Ok(parts)
}

// Adds an instruction to the parts of its function.
fn add_line(
    _mains: u16,
    _shared: &Shared,
    _place: usize,
    line: MidLine,
    parts: &mut FunctionParts,
) -> Result<(), AllocError>
    requires plain { IsOfFirstForm line.mid }
    requires sites { parts.old.next + sites_of (sharing_of _mains _shared.now _place line.mid) ≤ 65536 }
    ensures classes { OnOk result (parts.new.classes.items
        ≡ parts.old.classes.items ++ class_of parts.old.next (sharing_of _mains _shared.now _place line.mid) ∷ []) }
    ensures leading { OnOk result ((moved : ℕ → ℕ) → parts.new.leading.items ≡ parts.old.leading.items
        ++ with_line line.line (group_of leading moved _place
        (class_of parts.old.next (sharing_of _mains _shared.now _place line.mid)) line.mid)) }
    ensures trailing { OnOk result ((moved : ℕ → ℕ) → parts.new.trailing.items ≡ parts.old.trailing.items
        ++ with_line line.line (group_of trailing moved _place
        (class_of parts.old.next (sharing_of _mains _shared.now _place line.mid)) line.mid)) }
    ensures next { OnOk result (parts.new.next ≡ parts.old.next + sites_of (sharing_of _mains _shared.now _place line.mid)) }
{
    match line.mid {
        Mid::Const { .. } | Mid::Conv { .. } => {
            parts.classes.push(Class::Repeatable)?;
            parts.leading.push(copied(line))?;
            parts.trailing.push(copied(line))?;
        }
        Mid::Put { source } => add_exchange(line.line, RequestKind::Put, source, parts)?,
        Mid::Exit { source } => {
            add_exchange(line.line, RequestKind::Exit, source, parts)?;
            let end = VersionOp::End { source };
            parts.trailing.push(version_line(line.line, end))?;
        }
        Mid::Move { .. }
        | Mid::Arith { .. }
        | Mid::PtrAdd { .. }
        | Mid::PtrDiff { .. }
        | Mid::PtrCmp { .. }
        | Mid::GlobAddr { .. }
        | Mid::FunAddr { .. }
        | Mid::Load { .. }
        | Mid::Store { .. }
        | Mid::VLoad { .. }
        | Mid::VStore { .. }
        | Mid::Open { .. }
        | Mid::Close { .. }
        | Mid::Jump { .. }
        | Mid::JumpZ { .. }
        | Mid::JumpN { .. }
        | Mid::Turn
        | Mid::Call { .. }
        | Mid::CallPtr { .. }
        | Mid::Return { .. }
        | Mid::Get { .. } => unreachable!(),
    }
    Ok(())
}

// Adds an exchange that waits for the trailing side, with its site.
fn add_exchange(
    line: u32,
    request: RequestKind,
    source: u16,
    parts: &mut FunctionParts,
) -> Result<(), AllocError>
    requires { parts.old.next < 65536 }
    ensures classes { OnOk result (parts.new.classes.items ≡ parts.old.classes.items ++ Class.FailStop (site_of parts.old.next) ∷ []) }
    ensures leading { OnOk result (parts.new.leading.items
        ≡ parts.old.leading.items ++ with_line line (leading_echo (site_of parts.old.next) request source)) }
    ensures trailing { OnOk result (parts.new.trailing.items
        ≡ parts.old.trailing.items ++ with_line line (trailing_echo (site_of parts.old.next) source)) }
    ensures next { OnOk result (parts.new.next ≡ parts.old.next + 1) }
{
    let site = Site(parts.next as u16);
    let operands = Operands::One(source);
    let act = VersionOp::Act {
        site,
        request,
        target: None,
        function: None,
        operands,
    };
    parts.classes.push(Class::FailStop(site))?;
    parts
        .leading
        .push(version_line(line, VersionOp::Ask { site, operands }))?;
    parts
        .leading
        .push(version_line(line, VersionOp::Await { site, operands }))?;
    parts.leading.push(version_line(line, act))?;
    parts
        .trailing
        .push(version_line(line, VersionOp::Check { site, source }))?;
    parts
        .trailing
        .push(version_line(line, VersionOp::Ack { site, operands }))?;
    parts.next += 1;
    Ok(())
}

fn copied(line: MidLine) -> VersionLine
    ensures { result ≡ record { line = line.line; op = VersionOp.Copied line.mid } }
{
    version_line(line.line, VersionOp::Copied(line.mid))
}

fn version_line(line: u32, op: VersionOp) -> VersionLine
    ensures { result ≡ record { line = line; op = op } }
{
    VersionLine { line, op }
}
