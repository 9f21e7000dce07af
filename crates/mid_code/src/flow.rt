ghost use Rattle.std.specs.Prelude.{◌≡◌, ℕ, ◌+◌, ◌<◌, ◌≤◌, ◌∷◌, length, slice_get, slice_index, Some};
ghost use Rattle.std.specs.List.{list_any};
ghost use Rattle.mid_code.specs.declared.program.MidLine.{MidLine};
ghost use Rattle.std.specs.Bool.{OnFalse};
ghost use Rattle.mid_code.specs.Flow.{way_goes, breaks_order};
ghost use Rattle.mid_code.specs.Row.{Holds, number_behind, number_closes_wrongly, row_entered, row_after, has_other_number};

use crate::program::MidLine;
use crate::way::{Way, way_of};

/// Enters a target beyond the place, unless another place has entered it before.
fn enter(row: &mut [u32], limit: usize, place: usize, target: usize, left: u32)
    requires { limit ≤ length row.old }
    ensures { row.new ≡ row_entered limit place left target row.old }
{
    if place < target && target < limit && row[target] == 0 {
        row[target] = left;
    }
}

fn enter_all(row: &mut [u32], limit: usize, place: usize, targets: &[usize], left: u32)
    requires { limit ≤ length row.old }
    ensures { row.new ≡ row_after limit place left targets.now row.old }
{
    for target in targets {
        enter(row, limit, place, *target, left);
    }
}

fn has_other_number(row: &[u32], limit: usize, target: usize, left: u32) -> bool
    ensures { result ≡ has_other_number limit left row.now target }
{
    target < limit && row.get(target).copied().unwrap_or(0) != left
}

fn has_any_other(row: &[u32], limit: usize, targets: &[usize], left: u32) -> bool
    ensures { result ≡ list_any (λ target. has_other_number limit left row.now target) targets.now }
{
    targets
        .iter()
        .any(|target| has_other_number(row, limit, *target, left))
}

/// Enters the targets of an instruction, and tells whether one of them has another number then.
fn pass_to(row: &mut [u32], limit: usize, place: usize, targets: &[usize], left: u32) -> bool
    requires { limit ≤ length row.old }
    ensures row { row.new ≡ row_after limit place left targets.now row.old }
    ensures other { result ≡ list_any (λ target. has_other_number limit left row.new target) targets.now }
{
    enter_all(row, limit, place, targets, left);
    has_any_other(row, limit, targets, left)
}

/// The same, of an instruction that leads so.
fn pass_on(row: &mut [u32], limit: usize, place: usize, way: Way, left: u32) -> bool
    requires room { limit ≤ length row.old }
    requires here { place < limit }
    ensures row { row.new ≡ row_after limit place left (way_goes place way) row.old }
    ensures other { result ≡ list_any (λ target. has_other_number limit left row.new target) (way_goes place way) }
{
    let next = place + 1;
    match way {
        Way::Next | Way::Counts | Way::Begins | Way::Ends(_) => {
            pass_to(row, limit, place, &[next], left)
        }
        Way::Jumps(target) => pass_to(row, limit, place, &[target as usize], left),
        Way::Branches(target) => pass_to(row, limit, place, &[next, target as usize], left),
        Way::Returns | Way::Stops => pass_to(row, limit, place, &[], left),
    }
}

fn closes_wrongly(way: Way, here: u32) -> bool
    ensures { result ≡ number_closes_wrongly way here }
{
    match way {
        Way::Ends(begun) => u64::from(here) != u64::from(begun) + 2,
        Way::Returns => here != 1,
        Way::Next | Way::Counts | Way::Begins | Way::Jumps(_) | Way::Branches(_) | Way::Stops =>
            false,
    }
}

fn number_behind(row: &[u32], place: usize, way: Way, here: u32) -> u32
    requires { place < 65535 }
    ensures { result ≡ number_behind row.now place way here }
{
    match way {
        Way::Begins => place as u32 + 2,
        Way::Ends(begun) => row.get(begun as usize).copied().unwrap_or(0),
        Way::Next | Way::Counts | Way::Jumps(_) | Way::Branches(_) | Way::Returns | Way::Stops =>
            here,
    }
}

/// Whether the instruction at a place breaks the order of open objects. Where it does not, the
/// row has come one place further.
pub fn breaks_order(row: &mut [u32], code: &[MidLine], place: usize) -> bool
    requires room { length code.now ≤ length row.old }
    requires limit { length code.now ≤ 65535 }
    requires here { place < length code.now }
    requires holds { Holds row.old code.now place }
    ensures exact { (l : MidLine) → slice_get code.now place ≡ Some l → result ≡ breaks_order code.now place l.mid }
    ensures next { OnFalse result (Holds row.new code.now (place + 1)) }
{
    let here = row[place];
    if here == 0 {
        return false;
    }
    let way = way_of(&code[place].mid);
    if closes_wrongly(way, here) {
        return true;
    }
    let left = number_behind(row, place, way, here);
    pass_on(row, code.len(), place, way, left)
}
