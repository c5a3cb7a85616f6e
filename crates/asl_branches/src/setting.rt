//! What a node is run in.

use asl_tree::act::TreeFunc;
use sqlite_items::Items;
use std::alloc::Global;

/// What a node is run in, but for the state: the allocator, the subprograms in source order, and how many nodes more may be
/// open.
#[derive(Clone, Copy)]
pub struct Setting<'r> {
    pub alloc: Global,
    pub funcs: &'r Items<TreeFunc>,
    pub depth: u32,
}
