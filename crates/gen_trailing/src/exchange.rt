ghost use Rattle.std.specs.Prelude.{◌≡◌, ◌+◌, ◌-◌, ◌≤◌, ◌++◌, ◌∷◌, [], Some, map, length};
ghost use Rattle.srmt_base.specs.declared.request_kind.RequestKind.{RequestKind};
ghost use Rattle.mid_code.specs.declared.version.VersionOp.TheVariants.{Check, Ack, Take, CheckOpen};
ghost use Rattle.mid_code.specs.declared.version.Operands.TheVariants.{Passed};
ghost use Rattle.mid_code.specs.Versions.{trailing, trailing_exchange, trailing_exchange_size, trailing_size, group_of, checked, checks, check_count};
ghost use Rattle.mid_code.specs.Registers.{registers_list};
ghost use Rattle.version_code.specs.Lines.{gained};
ghost use Rattle.version_code.specs.Places.{moved_by};

use mid_code::{Class, Mid, MidLine, Operands, Registers, VersionOp};
use srmt_base::Site;
use version_code::{Lines, moved, moved_mid};

/// How many instructions of the version take the place of one of the code.
pub fn size(class: Class, mid: &Mid) -> u32
    ensures { result ≡ trailing_size class mid.now }
{
    match class {
        Class::Repeatable => 1,
        Class::NonRepeatable(_) | Class::FailStop(_) => exchange_size(mid),
    }
}

fn exchange_size(mid: &Mid) -> u32
    ensures { result ≡ trailing_exchange_size mid.now }
{
    match mid {
        Mid::Const { .. }
        | Mid::Move { .. }
        | Mid::Arith { .. }
        | Mid::Conv { .. }
        | Mid::PtrAdd { .. }
        | Mid::PtrDiff { .. }
        | Mid::PtrCmp { .. }
        | Mid::GlobAddr { .. }
        | Mid::FunAddr { .. }
        | Mid::Jump { .. }
        | Mid::JumpZ { .. }
        | Mid::JumpN { .. }
        | Mid::Turn
        | Mid::Return { .. }
        | Mid::Open { .. }
        | Mid::Close { .. } => 1,
        Mid::Load { .. } | Mid::Store { .. } | Mid::Put { .. } => 2,
        Mid::VLoad { .. } | Mid::Get { .. } | Mid::Exit { .. } => 3,
        Mid::VStore { .. } => 4,
        Mid::Call { args, .. } => check_count(args) + 2,
        Mid::CallPtr { args, .. } => u32::from(args.count) + 4,
    }
}

// How many comparisons the arguments of a direct call take: one of 0 where there are none.
fn check_count(args: &Registers) -> u32
    ensures count { result ≡ check_count (registers_list args.now) }
    ensures few { result ≤ 16 }
{
    if args.is_empty() {
        1
    } else {
        u32::from(args.count)
    }
}

/// Adds what takes the place of the instruction at a place, by the places at which groups begin.
pub fn add_group(lines: &mut Lines, starts: &[u32], place: u32, class: Class, line: &MidLine)
    requires starts { 1 ≤ length starts.now }
    requires place { place + 1 ≤ 65535 }
    requires room { trailing_size class line.now.mid ≤ lines.old.room }
    ensures { lines.new ≡ gained lines.old line.now.line
        (group_of trailing (moved_by starts.now) place class line.now.mid) }
{
    match class {
        Class::Repeatable => {
            let copied = VersionOp::Copied(moved_mid(starts, &line.mid));
            lines.add(line.line, &[copied]);
        }
        Class::NonRepeatable(site) | Class::FailStop(site) => {
            let behind = moved(starts, place + 1);
            add_exchange(lines, behind, site, line);
        }
    }
}

// Adds what takes the place of an instruction that has a site. A call goes on at the place `behind`.
fn add_exchange(lines: &mut Lines, behind: u32, site: Site, line: &MidLine)
    requires { trailing_exchange_size line.now.mid ≤ lines.old.room }
    ensures { lines.new ≡ gained lines.old line.now.line (trailing_exchange behind site line.now.mid) }
{
    let at = line.line;
    match line.mid {
        Mid::Const { .. }
        | Mid::Move { .. }
        | Mid::Arith { .. }
        | Mid::Conv { .. }
        | Mid::PtrAdd { .. }
        | Mid::PtrDiff { .. }
        | Mid::PtrCmp { .. }
        | Mid::GlobAddr { .. }
        | Mid::FunAddr { .. }
        | Mid::Jump { .. }
        | Mid::JumpZ { .. }
        | Mid::JumpN { .. }
        | Mid::Turn
        | Mid::Return { .. } => lines.add(at, &[VersionOp::Copied(line.mid)]),
        Mid::Load { target, pointer } => {
            lines.add(at, &[check(site, pointer), take(site, target)]);
        }
        Mid::Store { pointer, source } => {
            let value = VersionOp::CheckStored { site, source };
            lines.add(at, &[check(site, pointer), value]);
        }
        Mid::VLoad { target, pointer } => {
            let echo = ack(site, Operands::One(pointer));
            lines.add(at, &[check(site, pointer), echo, take(site, target)]);
        }
        Mid::VStore { pointer, source } => {
            let echo = ack(site, Operands::Two(pointer, source));
            let done = VersionOp::TakeDone { site };
            lines.add(at, &[check(site, pointer), check(site, source), echo, done]);
        }
        Mid::Open { target, cells } => lines.add(at, &[open(site, target, cells)]),
        Mid::Close { .. } => lines.add(at, &[VersionOp::CheckClose { site }]),
        Mid::Call { target, args, .. } => add_call(lines, at, site, target, &args),
        Mid::CallPtr {
            target,
            callee,
            ty,
            args,
        } => {
            let enter = VersionOp::Enter {
                callee,
                ty,
                target,
                place: behind,
                args,
            };
            lines.add(at, &[enter, check(site, callee)]);
            add_each(lines, at, site, args.as_slice());
            let echo = ack(site, Operands::Called { callee, args });
            lines.add(at, &[echo, take(site, target)]);
        }
        Mid::Put { source } => {
            let echo = ack(site, Operands::One(source));
            lines.add(at, &[check(site, source), echo]);
        }
        Mid::Get { target } => {
            let zero = VersionOp::CheckZero { site };
            let echo = ack(site, Operands::Nothing);
            lines.add(at, &[zero, echo, take(site, target)]);
        }
        Mid::Exit { source } => {
            let echo = ack(site, Operands::One(source));
            let end = VersionOp::End { source };
            lines.add(at, &[check(site, source), echo, end]);
        }
    }
}

// Adds the exchange of a direct call.
fn add_call(lines: &mut Lines, line: u32, site: Site, target: u16, args: &Registers)
    requires { check_count (registers_list args.now) + 2 ≤ lines.old.room }
    ensures { lines.new ≡ gained lines.old line (checked site (Passed args.now) ++ Take site (Some target) ∷ []) }
{
    add_checks(lines, line, site, args);
    let echo = ack(site, Operands::Passed(*args));
    lines.add(line, &[echo, take(site, target)]);
}

// Adds a comparison for each argument of a direct call, or one of 0 where there are none.
fn add_checks(lines: &mut Lines, line: u32, site: Site, args: &Registers)
    requires { check_count (registers_list args.now) ≤ lines.old.room }
    ensures lines { lines.new ≡ gained lines.old line (checks site (registers_list args.now)) }
    ensures room { lines.new.room ≡ lines.old.room - check_count (registers_list args.now) }
{
    if args.is_empty() {
        lines.add(line, &[VersionOp::CheckZero { site }]);
    } else {
        add_each(lines, line, site, args.as_slice());
    }
}

// Adds a comparison for each register.
fn add_each(lines: &mut Lines, line: u32, site: Site, sources: &[u16])
    requires { length sources.now ≤ lines.old.room }
    ensures { lines.new ≡ gained lines.old line (map (Check site) sources.now) }
{
    for source in sources {
        lines.add(line, &[check(site, *source)]);
    }
}

fn check(site: Site, source: u16) -> VersionOp
    ensures { result ≡ Check site source }
{
    VersionOp::Check { site, source }
}

fn ack(site: Site, operands: Operands) -> VersionOp
    ensures { result ≡ Ack site operands }
{
    VersionOp::Ack { site, operands }
}

fn open(site: Site, target: u16, cells: u16) -> VersionOp
    ensures { result ≡ CheckOpen site target cells }
{
    VersionOp::CheckOpen {
        site,
        target,
        cells,
    }
}

fn take(site: Site, target: u16) -> VersionOp
    ensures { result ≡ Take site (Some target) }
{
    VersionOp::Take {
        site,
        target: Some(target),
    }
}
