//! Lists that are taken apart from their end.

ghost use Rattle.std.specs.Prelude.{◌≡◌, IfOk, reverse};

use sqlite_items::Items;
use std::alloc::{AllocError, Global};

/// The items in the other order, so that the first is popped first.
pub fn reversed<T: Drop>(alloc: Global, items: Items<T>) -> Result<Items<T>, AllocError>
    ensures { IfOk result (λ r. r ≡ reverse items) }
{
    let mut rest = items;
    let mut found = Items::new(alloc);
    while let Some(item) = rest.pop() {
        found.push(item)?;
    }
    Ok(found)
}
