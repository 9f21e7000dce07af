//! Lists that the lines of the grammar make.

ghost use Rattle.std.specs.Prelude.{◌≡◌, ◌++◌, [], ◌∷◌, IfOk};

use sqlite_items::Items;
use std::alloc::{AllocError, Global};

/// The items with one more behind them. The first gets room for itself alone, since most lists have but one.
pub fn with_item<T: Drop>(alloc: Global, items: Items<T>, item: T) -> Result<Items<T>, AllocError>
    ensures { IfOk result (λ longer. longer ≡ items ++ item ∷ []) }
{
    if items.is_empty() {
        let mut only = Vec::with_capacity(alloc, 1)?;
        only.push(item)?;
        return Ok(Items::from_vec(only));
    }
    let mut longer = items;
    longer.push(item)?;
    Ok(longer)
}
