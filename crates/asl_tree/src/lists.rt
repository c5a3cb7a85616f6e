//! Typed trees in lists.

ghost use Rattle.std.specs.Prelude.{◌≡◌, [], ◌∷◌, IfOk};

use crate::tree::Tree;
use sqlite_items::{Boxed, Items};
use std::alloc::{AllocError, Global};

/// One tree alone.
pub fn one_tree(alloc: Global, tree: Boxed<Tree>) -> Result<Items<Tree>, AllocError>
    ensures { IfOk result (λ trees. trees ≡ tree ∷ []) }
{
    let mut trees = Items::new(alloc);
    trees.push(tree.into_inner())?;
    Ok(trees)
}

/// Two trees.
pub fn two_trees(
    alloc: Global,
    first: Boxed<Tree>,
    second: Boxed<Tree>,
) -> Result<Items<Tree>, AllocError>
    ensures { IfOk result (λ trees. trees ≡ first ∷ second ∷ []) }
{
    let mut trees = one_tree(alloc, first)?;
    trees.push(second.into_inner())?;
    Ok(trees)
}
