ghost use Rattle.std.specs.Prelude.{◌≡◌, ◌≤◌, length};
ghost use Rattle.mid_code.specs.Versions.{moved_mid};
ghost use Rattle.version_code.specs.Places.{moved_by};

use mid_code::Mid;

/// Where a place of the code moves, by the places at which the groups begin and the last ends.
pub fn moved(starts: &[u32], place: u32) -> u32
    requires { 1 ≤ length starts.now }
    ensures { result ≡ moved_by starts.now place }
{
    match starts.get(place as usize) {
        Some(start) => *start,
        None => starts[starts.len() - 1],
    }
}

/// An instruction with its places moved.
pub fn moved_mid(starts: &[u32], mid: &Mid) -> Mid
    requires { 1 ≤ length starts.now }
    ensures { result ≡ moved_mid (moved_by starts.now) mid.now }
{
    match *mid {
        Mid::Close { place } => Mid::Close {
            place: moved(starts, place),
        },
        Mid::Jump { place } => Mid::Jump {
            place: moved(starts, place),
        },
        Mid::JumpZ { source, place } => Mid::JumpZ {
            source,
            place: moved(starts, place),
        },
        Mid::JumpN { source, place } => Mid::JumpN {
            source,
            place: moved(starts, place),
        },
        Mid::Const { .. }
        | Mid::Move { .. }
        | Mid::Arith { .. }
        | Mid::Conv { .. }
        | Mid::PtrAdd { .. }
        | Mid::PtrDiff { .. }
        | Mid::PtrCmp { .. }
        | Mid::GlobAddr { .. }
        | Mid::FunAddr { .. }
        | Mid::Load { .. }
        | Mid::Store { .. }
        | Mid::VLoad { .. }
        | Mid::VStore { .. }
        | Mid::Open { .. }
        | Mid::Turn
        | Mid::Call { .. }
        | Mid::CallPtr { .. }
        | Mid::Return { .. }
        | Mid::Put { .. }
        | Mid::Get { .. }
        | Mid::Exit { .. } => *mid,
    }
}
