ghost use Rattle.std.specs.Prelude.{◌≡◌, ◌+◌, ◌≤◌, ◌++◌, ◌∷◌, [], Some, map, length};
ghost use Rattle.mid_code.specs.Versions.{leading, leading_exchange, leading_exchange_size, leading_size, group_of, asked};
ghost use Rattle.mid_code.specs.declared.version.VersionOp.TheVariants.{SharedLoad, SharedStore, SharedOpen};
ghost use Rattle.version_code.specs.Lines.{gained};
ghost use Rattle.version_code.specs.Places.{moved_by};

use mid_code::{Class, Mid, MidLine, Operands, VersionOp};
use srmt_base::{RequestKind, Site};
use version_code::{Lines, moved, moved_mid};

/// How many instructions of the version take the place of one of the code.
pub fn size(class: Class, mid: &Mid) -> u32
    ensures { result ≡ leading_size class mid.now }
{
    match class {
        Class::Repeatable => 1,
        Class::NonRepeatable(_) | Class::FailStop(_) => exchange_size(mid),
    }
}

fn exchange_size(mid: &Mid) -> u32
    ensures { result ≡ leading_exchange_size mid.now }
{
    match mid {
        Mid::Const { .. }
        | Mid::Move { .. }
        | Mid::Arith { .. }
        | Mid::Conv { .. }
        | Mid::PtrAdd { .. }
        | Mid::PtrDiff { .. }
        | Mid::PtrCmp { .. }
        | Mid::GlobAddr { .. }
        | Mid::FunAddr { .. }
        | Mid::Jump { .. }
        | Mid::JumpZ { .. }
        | Mid::JumpN { .. }
        | Mid::Turn
        | Mid::Return { .. }
        | Mid::Load { .. }
        | Mid::Store { .. }
        | Mid::Open { .. }
        | Mid::Close { .. } => 1,
        Mid::VLoad { .. }
        | Mid::VStore { .. }
        | Mid::Call { .. }
        | Mid::Put { .. }
        | Mid::Get { .. }
        | Mid::Exit { .. } => 3,
        Mid::CallPtr { .. } => 4,
    }
}

/// Adds what takes the place of the instruction at a place, by the places at which groups begin.
pub fn add_group(lines: &mut Lines, starts: &[u32], place: u32, class: Class, line: &MidLine)
    requires starts { 1 ≤ length starts.now }
    requires place { place + 1 ≤ 65535 }
    requires room { leading_size class line.now.mid ≤ lines.old.room }
    ensures { lines.new ≡ gained lines.old line.now.line
        (group_of leading (moved_by starts.now) place class line.now.mid) }
{
    match class {
        Class::Repeatable => {
            let copied = VersionOp::Copied(moved_mid(starts, &line.mid));
            lines.add(line.line, &[copied]);
        }
        Class::NonRepeatable(site) | Class::FailStop(site) => {
            let behind = moved(starts, place + 1);
            add_exchange(lines, behind, site, line);
        }
    }
}

// Adds what takes the place of an instruction that has a site. A call goes on at the place `behind`.
fn add_exchange(lines: &mut Lines, behind: u32, site: Site, line: &MidLine)
    requires { leading_exchange_size line.now.mid ≤ lines.old.room }
    ensures { lines.new ≡ gained lines.old line.now.line (leading_exchange behind site line.now.mid) }
{
    let at = line.line;
    match line.mid {
        Mid::Const { .. }
        | Mid::Move { .. }
        | Mid::Arith { .. }
        | Mid::Conv { .. }
        | Mid::PtrAdd { .. }
        | Mid::PtrDiff { .. }
        | Mid::PtrCmp { .. }
        | Mid::GlobAddr { .. }
        | Mid::FunAddr { .. }
        | Mid::Jump { .. }
        | Mid::JumpZ { .. }
        | Mid::JumpN { .. }
        | Mid::Turn
        | Mid::Return { .. } => lines.add(at, &[VersionOp::Copied(line.mid)]),
        Mid::Load { target, pointer } => lines.add(at, &[load(site, target, pointer)]),
        Mid::Store { pointer, source } => lines.add(at, &[store(site, pointer, source)]),
        Mid::Open { target, cells } => lines.add(at, &[open(site, target, cells)]),
        Mid::Close { .. } => lines.add(at, &[VersionOp::SharedClose { site }]),
        Mid::VLoad { target, pointer } => {
            let operands = Operands::One(pointer);
            let group = asked(site, RequestKind::VLoad, Some(target), None, operands);
            lines.add(at, &group);
        }
        Mid::VStore { pointer, source } => {
            let operands = Operands::Two(pointer, source);
            let group = asked(site, RequestKind::VStore, None, None, operands);
            lines.add(at, &group);
        }
        Mid::Call {
            target,
            function,
            args,
        } => {
            let operands = Operands::Passed(args);
            let function = Some(function);
            let group = asked(site, RequestKind::Call, Some(target), function, operands);
            lines.add(at, &group);
        }
        Mid::CallPtr {
            target,
            callee,
            ty,
            args,
        } => {
            let operands = Operands::Called { callee, args };
            let [ask, wait, act] = asked(site, RequestKind::Call, Some(target), None, operands);
            let enter = VersionOp::Enter {
                callee,
                ty,
                target,
                place: behind,
                args,
            };
            lines.add(at, &[enter, ask, wait, act]);
        }
        Mid::Put { source } => {
            let operands = Operands::One(source);
            let group = asked(site, RequestKind::Put, None, None, operands);
            lines.add(at, &group);
        }
        Mid::Get { target } => {
            let operands = Operands::Nothing;
            let group = asked(site, RequestKind::Get, Some(target), None, operands);
            lines.add(at, &group);
        }
        Mid::Exit { source } => {
            let operands = Operands::One(source);
            let group = asked(site, RequestKind::Exit, None, None, operands);
            lines.add(at, &group);
        }
    }
}

fn load(site: Site, target: u16, pointer: u16) -> VersionOp
    ensures { result ≡ SharedLoad site target pointer }
{
    VersionOp::SharedLoad {
        site,
        target,
        pointer,
    }
}

fn store(site: Site, pointer: u16, source: u16) -> VersionOp
    ensures { result ≡ SharedStore site pointer source }
{
    VersionOp::SharedStore {
        site,
        pointer,
        source,
    }
}

fn open(site: Site, target: u16, cells: u16) -> VersionOp
    ensures { result ≡ SharedOpen site target cells }
{
    VersionOp::SharedOpen {
        site,
        target,
        cells,
    }
}

// The instructions of an exchange that waits for the trailing thread.
fn asked(
    site: Site,
    request: RequestKind,
    target: Option<u16>,
    function: Option<u16>,
    operands: Operands,
) -> [VersionOp; 3]
    ensures { result ≡ asked site request target function operands }
{
    [
        VersionOp::Ask { site, operands },
        VersionOp::Await { site, operands },
        VersionOp::Act {
            site,
            request,
            target,
            function,
            operands,
        },
    ]
}
