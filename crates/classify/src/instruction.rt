ghost use Rattle.std.specs.Prelude.{◌≡◌, ◌+◌, ◌≤◌};
ghost use Rattle.mid_code.specs.Classes.{is_marked, alone_if, echoed_if, sharing_of, sites_of, class_of};

use mid_code::{Class, Mid, Shared};
use sqlite_items::Items;
use srmt_base::Site;

/// The class of the instruction at a place, where so many functions are those of the main file, and
/// so many sites are given before it.
pub fn class_of(mains: u16, shared: &Shared, place: usize, mid: &Mid, given: u16) -> Class
    requires { given + sites_of (sharing_of mains shared.now place mid.now) ≤ 65535 }
    ensures { result ≡ class_of (given + 1) (sharing_of mains shared.now place mid.now) }
{
    match *mid {
        Mid::Const { .. }
        | Mid::Move { .. }
        | Mid::Arith { .. }
        | Mid::Conv { .. }
        | Mid::PtrAdd { .. }
        | Mid::PtrDiff { .. }
        | Mid::PtrCmp { .. }
        | Mid::GlobAddr { .. }
        | Mid::FunAddr { .. }
        | Mid::Jump { .. }
        | Mid::JumpZ { .. }
        | Mid::JumpN { .. }
        | Mid::Turn
        | Mid::Return { .. } => Class::Repeatable,
        Mid::Load { pointer, .. } | Mid::Store { pointer, .. } => {
            alone_if(is_marked(&shared.registers, usize::from(pointer)), given)
        }
        Mid::Open { .. } => alone_if(is_marked(&shared.places, place), given),
        Mid::Close { place: begun } => alone_if(is_marked(&shared.places, begun as usize), given),
        Mid::Call { function, .. } => echoed_if(mains < function, given),
        Mid::VLoad { .. }
        | Mid::VStore { .. }
        | Mid::CallPtr { .. }
        | Mid::Put { .. }
        | Mid::Get { .. }
        | Mid::Exit { .. } => Class::FailStop(Site(given + 1)),
    }
}

fn is_marked(marks: &Items<bool>, at: usize) -> bool
    ensures { result ≡ is_marked marks.now at }
{
    marks.get(at).copied().unwrap_or(false)
}

// Of an access to memory, or to an object.
fn alone_if(shared: bool, given: u16) -> Class
    requires { given + sites_of (alone_if shared) ≤ 65535 }
    ensures { result ≡ class_of (given + 1) (alone_if shared) }
{
    if shared {
        Class::NonRepeatable(Site(given + 1))
    } else {
        Class::Repeatable
    }
}

// Of a call.
fn echoed_if(binary: bool, given: u16) -> Class
    requires { given + sites_of (echoed_if binary) ≤ 65535 }
    ensures { result ≡ class_of (given + 1) (echoed_if binary) }
{
    if binary {
        Class::FailStop(Site(given + 1))
    } else {
        Class::Repeatable
    }
}
