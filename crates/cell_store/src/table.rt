ghost use Rattle.std.specs.Prelude.{◌≡◌, ℕ, ◌+◌, ◌-◌, ◌*◌, ◌^◌, ◌<◌, ◌≤◌, None, MatchOption, All, ◌++◌, map, take, drop, slice_index_or, length, vec_len, vec_capacity};
ghost use Rattle.std.specs.Ordering.{MatchOrdering};
ghost use Rattle.cell_store.specs.Flat.{row_of, reach_of, AreLaid, IsPlaceOf, moved_down, without};

use crate::Steps;
use srmt_base::Trap;
use std::cmp::Ordering;
use std::marker::Brand;
use std::sync::ledger::{Blank, Ledger};

/// What the table keeps of a live object: 12 bytes.
#[derive(Clone, Copy, Debug)]
pub(crate) struct Row {
    /// The object's number.
    pub(crate) number: u32,
    /// The place of its first cell.
    pub(crate) start: u32,
    /// How many cells it has, at least 1.
    pub(crate) cells: u16,
    /// Whether it may only be read.
    pub(crate) read_only: bool,
}

/// How the number of a line stands to another: one step.
fn compare<L: Ledger>(row: &Row, number: u64, steps: &mut Steps<L>) -> Ordering
    ensures order { MatchOrdering result (row.now.number < number) (row.now.number ≡ number) (number < row.now.number) }
    ensures step { steps.new ≡ steps.old + 1 }
{
    steps.tick();
    u64::from(row.number).cmp(&number)
}

/// The place of the line of a number, by halving the table.
pub(crate) fn place<L: Ledger>(rows: &[Row], number: u64, steps: &mut Steps<L>) -> Option<usize>
    requires { (end fresh : ℕ) × AreLaid 0 0 rows.now end fresh }
    ensures place { MatchOption result (row_of rows.now number ≡ None) (IsPlaceOf rows.now number) }
    ensures counted { steps.old ≤ steps.new }
    ensures cost { 2 ^ (steps.new - steps.old) ≤ 2 * length rows.now + 1 }
{
    let mut low = 0;
    let mut high = rows.len();
    while low < high {
        let middle = low + (high - low) / 2;
        match compare(&rows[middle], number, steps) {
            Ordering::Less => low = middle + 1,
            Ordering::Equal => return Some(middle),
            Ordering::Greater => high = middle,
        }
    }
    None
}

/// The same, with no steps counted.
fn uncounted<L: Ledger>(rows: &[Row], number: u64, blank: Blank) -> Option<usize>
    requires laid { (end fresh : ℕ) × AreLaid 0 0 rows.now end fresh }
    requires name { blank.name ≡ L.name }
    requires parts { blank.parts ≡ L.parts }
    requires some { 0 < blank.parts }
    ensures { MatchOption result (row_of rows.now number ≡ None) (IsPlaceOf rows.now number) }
{
    let mut steps = Steps::<L>::new(blank);
    place(rows, number, &mut steps)
}

/// The same, the newest line first.
pub(crate) fn newest_or_place(rows: &[Row], number: u64) -> Option<usize>
    requires { (end fresh : ℕ) × AreLaid 0 0 rows.now end fresh }
    ensures { MatchOption result (row_of rows.now number ≡ None) (IsPlaceOf rows.now number) }
{
    let len = rows.len();
    if len > 0 && u64::from(rows[len - 1].number) == number {
        return Some(len - 1);
    }
    uncounted::<Brand>(rows, number, Blank::new(1))
}

/// The place of the cell that an access reaches, or the first test that the access fails.
pub(crate) fn reach(rows: &[Row], pointer: u64, writes: bool) -> Result<usize, Trap>
    requires { (end fresh : ℕ) × AreLaid 0 0 rows.now end fresh }
    ensures { result ≡ reach_of writes rows.now pointer }
{
    let number = pointer / 65536;
    if number == 0 {
        return Err(Trap::NullPointer);
    }
    let Some(at) = newest_or_place(rows, number) else {
        return Err(Trap::DeadObject);
    };
    let row = rows[at];
    let offset = pointer % 65536;
    if u64::from(row.cells) <= offset {
        return Err(Trap::OutsideObject);
    }
    if writes && row.read_only {
        return Err(Trap::ReadOnly);
    }
    Ok(row.start as usize + offset as usize)
}

/// Moves the cells of each line down.
fn move_down(rows: &mut [Row], by: u32)
    requires { All (λ row. by ≤ row.start) rows.old }
    ensures { rows.new ≡ map (moved_down by) rows.old }
{
    for row in rows {
        row.start -= by;
    }
}

/// Takes a line out of the table, and moves the cells of those behind it down over its own.
pub(crate) fn take_out(rows: &mut Vec<Row>, at: usize) -> Row
    requires laid { (end fresh : ℕ) × AreLaid 0 0 rows.old.items end fresh }
    requires within { at < vec_len rows.old }
    ensures row { result ≡ slice_index_or rows.old.items at result }
    ensures items { rows.new.items ≡ take at rows.old.items ++ map (moved_down result.cells) (drop (at + 1) rows.old.items) }
    ensures capacity { vec_capacity rows.new ≡ vec_capacity rows.old }
{
    let row = rows.remove(at);
    move_down(&mut rows[at..], u32::from(row.cells));
    row
}

/// Takes a part of the cells out, and moves those behind it down.
pub(crate) fn close_up(cells: &mut Vec<u64>, start: usize, count: usize)
    requires { start + count ≤ vec_len cells.old }
    ensures items { cells.new.items ≡ without cells.old.items start count }
    ensures capacity { vec_capacity cells.new ≡ vec_capacity cells.old }
{
    let len = cells.len();
    cells.copy_within(start + count..len, start);
    cells.truncate(len - count);
}
