//! Copies of names and texts.

ghost use Rattle.std.specs.Prelude.{◌≡◌, IfOk};

use asl_syn::tree::{Ident, Text};
use sqlite_items::Items;
use std::alloc::{AllocError, Global};

/// A copy of a text.
pub fn copy_text(alloc: Global, text: &Text) -> Result<Text, AllocError>
    ensures { IfOk result (λ copy. copy ≡ text.now) }
{
    Text::from_slice(alloc, text.as_slice())
}

/// A copy of a name.
pub fn copy_ident(alloc: Global, name: &Ident) -> Result<Ident, AllocError>
    ensures { IfOk result (λ copy. copy ≡ name.now) }
{
    Ok(Ident {
        span: name.span,
        text: copy_text(alloc, &name.text)?,
    })
}

/// A copy of a name, where there is one.
pub fn copy_maybe_ident(alloc: Global, item: &Option<Ident>) -> Result<Option<Ident>, AllocError>
    ensures { IfOk result (λ copy. copy ≡ item.now) }
{
    match item {
        None => Ok(None),
        Some(item) => Ok(Some(copy_ident(alloc, item)?)),
    }
}

/// Copies of names.
pub fn copy_idents(alloc: Global, items: &[Ident]) -> Result<Items<Ident>, AllocError>
    ensures { IfOk result (λ copies. copies ≡ items.now) }
{
    let mut copies = Items::new(alloc);
    for item in items {
        copies.push(copy_ident(alloc, item)?)?;
    }
    Ok(copies)
}
