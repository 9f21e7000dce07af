ghost use Rattle.std.specs.Prelude.{◌≡◌, ℕ, ◌^◌, ◌<◌, None, IsFalse, MatchOption, IfOk, IfErr, OnOk, OnErr};
ghost use Rattle.srmt_base.specs.Objects.{start_of, offset_part, is_live, live_cells, access_of, add_of, load_of, put_of, set_up_of, end_of};
ghost use Rattle.cell_store.specs.Plain.{plain, found_in, IsFoundAt, IsReached};

use srmt_base::Trap;
use std::alloc::{AllocError, Global};
use std::marker::Model;

/// An object of a plain store.
#[derive(Debug, Drop)]
struct PlainObject {
    number: u32,
    cells: Vec<u64>,
    read_only: bool,
}

/// One part of a program's memory as the list of its objects. Each access looks through the list:
/// this is the slow program that [`Store`](crate::Store) is compared with.
#[derive(Debug, Drop)]
pub struct PlainStore {
    budget: u32,
    fresh: u64,
    objects: Vec<PlainObject>,
}

impl Model for PlainStore {
    ghost use Rattle.srmt_base.specs.Objects.{Objects};
    ghost use Rattle.cell_store.specs.Plain.{plain, IsPlain};

    ghost Value = { Objects };

    ghost view = { λ s. plain s.budget s.fresh s.objects.items };

    ghost invariant = { λ s. IsPlain (plain s.budget s.fresh s.objects.items) };
}

impl PlainStore {
    /// A store with no object, for a number of cells and for the numbers from `first` on.
    pub fn start(alloc: Global, cells: u32, first: u32) -> Self
        ensures { result ≡ start_of cells first }
    {
        PlainStore {
            budget: cells,
            fresh: u64::from(first),
            objects: Vec::new(alloc),
        }
    }

    /// Begins an object of zeros behind all others. The trap is `Store` exactly where the number is
    /// below `first` or not above each number added before, or where more cells than the store was
    /// started with would live.
    pub fn add(
        &mut self,
        alloc: Global,
        number: u32,
        cells: u16,
        read_only: bool,
    ) -> Result<Result<(), Trap>, AllocError>
        ensures ok { IfOk result (λ answer. OnOk answer (add_of self.old number cells read_only ≡ Ok self.new)) }
        ensures trap { IfOk result (λ answer. IfErr answer (λ trap. add_of self.old number cells read_only ≡ Err trap)) }
        ensures unchanged { IfOk result (λ answer. OnErr answer (self.new ≡ self.old)) }
        ensures err { OnErr result (self.new ≡ self.old) }
    {
        let room = u64::from(self.budget) - used(&self.objects);
        if u64::from(number) < self.fresh || room < u64::from(cells) {
            return Ok(Err(Trap::Store));
        }
        let object = PlainObject {
            number,
            cells: vec![in alloc; 0; cells as usize]?,
            read_only,
        };
        self.objects.push(object)?;
        self.fresh = u64::from(number) + 1;
        Ok(Ok(()))
    }

    /// The value of a cell.
    pub fn load(&self, pointer: u64) -> Result<u64, Trap>
        ensures { result ≡ load_of self.now pointer }
    {
        let at = reach(&self.objects, pointer, false)?;
        Ok(self.objects[at].cells[offset(pointer)])
    }

    /// Writes a cell.
    pub fn put(&mut self, pointer: u64, value: u64) -> Result<(), Trap>
        ensures ok { OnOk result (put_of self.old pointer value ≡ Ok self.new) }
        ensures trap { IfErr result (λ trap. put_of self.old pointer value ≡ Err trap) }
        ensures err { OnErr result (self.new ≡ self.old) }
    {
        let at = reach(&self.objects, pointer, true)?;
        let object = &mut self.objects[at];
        object.cells[offset(pointer)] = value;
        Ok(())
    }

    /// Gives a cell its starting value, also in an object that may only be read.
    pub fn set_up(&mut self, pointer: u64, value: u64) -> Result<(), Trap>
        ensures ok { OnOk result (set_up_of self.old pointer value ≡ Ok self.new) }
        ensures trap { IfErr result (λ trap. set_up_of self.old pointer value ≡ Err trap) }
        ensures err { OnErr result (self.new ≡ self.old) }
    {
        let at = reach(&self.objects, pointer, false)?;
        let object = &mut self.objects[at];
        object.cells[offset(pointer)] = value;
        Ok(())
    }

    /// Ends a live object, and answers whether there was one.
    pub fn end(&mut self, number: u32) -> bool
        ensures live { result ≡ is_live self.old number }
        ensures ended { self.new ≡ end_of self.old number }
        ensures unchanged { IsFalse result → self.new ≡ self.old }
    {
        let Some(at) = position(&self.objects, u64::from(number)) else {
            return false;
        };
        drop(self.objects.remove(at));
        true
    }
}

/// How many cells live.
fn used(objects: &[PlainObject]) -> u64
    requires { live_cells (plain 0 0 objects.now) < 2 ^ 32 }
    ensures { result ≡ live_cells (plain 0 0 objects.now) }
{
    let mut cells = 0;
    for object in objects {
        cells += object.cells.len() as u64;
    }
    cells
}

/// The offset of a pointer.
fn offset(pointer: u64) -> usize
    ensures { result ≡ offset_part pointer }
{
    (pointer % 65536) as usize
}

/// The place of the object of a number.
fn position(objects: &[PlainObject], number: u64) -> Option<usize>
    ensures { MatchOption result (found_in objects.now number ≡ None) (IsFoundAt objects.now number) }
{
    for (at, object) in objects.iter().enumerate() {
        if u64::from(object.number) == number {
            return Some(at);
        }
    }
    None
}

/// The place of the object that an access reaches, or the first test that the access fails.
fn reach(objects: &[PlainObject], pointer: u64, writes: bool) -> Result<usize, Trap>
    ensures reached { IfOk result (IsReached writes objects.now pointer) }
    ensures trap { IfErr result (λ trap. access_of writes (plain 0 0 objects.now) pointer ≡ Err trap) }
{
    let number = pointer / 65536;
    if number == 0 {
        return Err(Trap::NullPointer);
    }
    let Some(at) = position(objects, number) else {
        return Err(Trap::DeadObject);
    };
    let object = &objects[at];
    if object.cells.len() <= offset(pointer) {
        return Err(Trap::OutsideObject);
    }
    if writes && object.read_only {
        return Err(Trap::ReadOnly);
    }
    Ok(at)
}
