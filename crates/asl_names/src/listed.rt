//! Nodes of a graph, each listed once.

ghost use Rattle.std.specs.Prelude.{◌≡◌, ◌∷◌, ◌++◌, ◌<◌, [], true, false, length, replicate, slice_set, IfOk, OnOk};

use sqlite_items::Items;
use std::alloc::{AllocError, Global};

/// Nodes, and of each node of the graph whether it is one of them.
#[derive(Drop)]
pub(crate) struct Listed {
    /// In the order in which they were added.
    pub(crate) nodes: Items<usize>,
    pub(crate) marks: Items<bool>,
}

impl Listed {
    /// None of so many nodes.
    pub(crate) fn new(alloc: Global, count: usize) -> Result<Listed, AllocError>
        ensures nodes { IfOk result (λ listed. listed.nodes ≡ []) }
        ensures marks { IfOk result (λ listed. listed.marks ≡ replicate count false) }
    {
        Ok(Listed {
            nodes: Items::new(alloc),
            marks: Items::from_vec(vec![in alloc; false; count]?),
        })
    }

    /// One more.
    pub(crate) fn add(&mut self, node: usize) -> Result<(), AllocError>
        requires { node < length self.old.marks }
        ensures nodes { OnOk result (self.new.nodes ≡ self.old.nodes ++ node ∷ []) }
        ensures marks { OnOk result (self.new.marks ≡ slice_set self.old.marks node true) }
    {
        self.nodes.push(node)?;
        self.marks.set(node, true);
        Ok(())
    }
}
