//! Nodes that there is a way to.

ghost use Rattle.std.specs.Prelude.{◌≡◌, ℕ, ◌<◌, [], true, false, length, IfOk, OnOk};
ghost use Rattle.asl_turns.specs.Graphs.{has_mark, all_marked};
ghost use Rattle.asl_names.specs.private.Ways.{room, IsListed, HasWay, HasEdges, Below, MarkedMore, Goes, FoundOne};

use crate::listed::Listed;
use asl_turns::{has_mark, row};
use sqlite_items::Items;
use std::alloc::{AllocError, Global};

/// One more, where it isn't among those that were found.
#[tactic(auto, using(crate::proofs::Marks::listed_more, crate::proofs::Marks::room_same, crate::proofs::Ways::set_more))]
fn find(found: &mut Listed, node: usize) -> Result<(), AllocError>
    requires listed { IsListed found.old.nodes found.old.marks }
    requires within { node < length found.old.marks }
    ensures listed { OnOk result (IsListed found.new.nodes found.new.marks) }
    ensures count { OnOk result (length found.new.marks ≡ length found.old.marks) }
    ensures room { OnOk result (room found.new.nodes found.new.marks ≡ room found.old.nodes found.old.marks) }
    ensures more { OnOk result (MarkedMore found.old.marks found.new.marks) }
    ensures marked { OnOk result (has_mark found.new.marks node ≡ true) }
    ensures nodes { OnOk result (FoundOne found.old.nodes node found.new.nodes) }
{
    if !has_mark(found.marks.as_slice(), node) {
        found.add(node)?;
    }
    Ok(())
}

/// Each of these, where it isn't among those that were found.
fn find_all(found: &mut Listed, nodes: &[usize]) -> Result<(), AllocError>
    requires listed { IsListed found.old.nodes found.old.marks }
    requires within { Below nodes.now (length found.old.marks) }
    ensures listed { OnOk result (IsListed found.new.nodes found.new.marks) }
    ensures count { OnOk result (length found.new.marks ≡ length found.old.marks) }
    ensures room { OnOk result (room found.new.nodes found.new.marks ≡ room found.old.nodes found.old.marks) }
    ensures more { OnOk result (MarkedMore found.old.marks found.new.marks) }
    ensures marked { OnOk result (all_marked found.new.marks nodes.now ≡ true) }
    ensures nodes { OnOk result (Goes found.old.nodes nodes.now found.new.nodes) }
{
    for node in nodes {
        find(found, *node)?;
    }
    Ok(())
}

/// The nodes that there is a way to from this one.
fn reached_from(alloc: Global, graph: &[Items<usize>], start: usize) -> Result<Listed, AllocError>
    requires { HasEdges graph.now }
    ensures way { IfOk result (λ found. (k : ℕ) → has_mark found.marks k ≡ true → HasWay graph.now start k) }
    ensures mark { IfOk result (λ found. (k : ℕ) → HasWay graph.now start k → has_mark found.marks k ≡ true) }
{
    let mut found = Listed::new(alloc, graph.len())?;
    find_all(&mut found, row(graph, start))?;
    let mut at = 0;
    while at < found.nodes.len() {
        let node = found.nodes.as_slice()[at];
        find_all(&mut found, row(graph, node))?;
        at += 1;
    }
    Ok(found)
}

/// Whether there is a way from a node back to it.
pub(crate) fn reaches_itself(
    alloc: Global,
    graph: &[Items<usize>],
    node: usize,
) -> Result<bool, AllocError>
    requires { HasEdges graph.now }
    ensures way { IfOk result (λ back. back ≡ true → HasWay graph.now node node) }
    ensures none { IfOk result (λ back. HasWay graph.now node node → back ≡ true) }
{
    let found = reached_from(alloc, graph, node)?;
    Ok(has_mark(found.marks.as_slice(), node))
}
