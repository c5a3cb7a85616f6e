//! The nodes that wait: those that are ready, and each other one among the watchers of a node that it uses.

ghost use Rattle.std.specs.Prelude.{◌≡◌, ℕ, ◌<◌, true, false, [], length, drop, slice_index, slice_set, IfOk, OnOk, MatchOption};
ghost use Rattle.asl_turns.specs.Graphs.{row, has_mark, all_marked};
ghost use Rattle.asl_turns.specs.private.Queues.{with_watcher, IsPlaced, Waits, OnlyReady, IsQueue, IsQueueBut, HasGone};

use crate::graph::{has_mark, row};
use sqlite_items::Items;
use std::alloc::{AllocError, Global};
use std::collections::BTreeSet;
use std::mem;

#[derive(Drop)]
pub(crate) struct Queue {
    /// The nodes that wait and use only settled ones.
    ready: BTreeSet<usize>,
    /// For each node those that are looked at again once it is settled.
    watchers: Vec<Items<usize>>,
    /// For each node where in its row the one stands that it watched last.
    places: Vec<usize>,
}

/// The place of the first of these nodes that isn't settled, from a place on.
#[tactic(auto, using(crate::proofs::Marks::marked_next, crate::proofs::Marks::marked_end))]
fn unsettled_from(settled: &[bool], nodes: &[usize], from: usize) -> Option<usize>
    ensures { MatchOption result (all_marked settled.now (drop from nodes.now) ≡ true) (λ at. (at < length nodes.now) × (has_mark settled.now (slice_index nodes.now at) ≡ false)) }
{
    for at in from..nodes.len() {
        if !has_mark(settled, nodes[at]) {
            return Some(at);
        }
    }
    None
}

/// The place of one of these nodes that isn't settled, if any. The search begins at this place and goes round, so that
/// it is right for any place. If all before it are settled, it passes none of them but where it finds no other.
fn unsettled_around(settled: &[bool], nodes: &[usize], from: usize) -> Option<usize>
    ensures { MatchOption result (all_marked settled.now nodes.now ≡ true) (λ at. (at < length nodes.now) × (has_mark settled.now (slice_index nodes.now at) ≡ false)) }
{
    match unsettled_from(settled, nodes, from) {
        Some(at) => Some(at),
        None => unsettled_from(settled, nodes, 0),
    }
}

/// No watchers of so many nodes.
fn no_watchers(alloc: Global, count: usize) -> Result<Vec<Items<usize>>, AllocError>
    ensures { IfOk result (λ watchers. length watchers.items ≡ count) }
{
    let mut watchers = Vec::new(alloc);
    for _node in 0..count {
        watchers.push(Items::new(alloc))?;
    }
    Ok(watchers)
}

impl Queue {
    /// No node is ready, and none watches another.
    fn empty(alloc: Global, count: usize) -> Result<Queue, AllocError>
        ensures ready { IfOk result (λ queue. queue.ready.keys ≡ []) }
        ensures watchers { IfOk result (λ queue. length queue.watchers.items ≡ count) }
    {
        Ok(Queue {
            ready: BTreeSet::new(alloc),
            watchers: no_watchers(alloc, count)?,
            places: vec![in alloc; 0usize; count]?,
        })
    }

    /// The nodes of a graph that wait.
    pub(crate) fn new(
        alloc: Global,
        graph: &[Items<usize>],
        waiting: &[bool],
        settled: &[bool],
    ) -> Result<Queue, AllocError>
        requires { length settled.now ≡ length graph.now }
        ensures { IfOk result (IsQueue graph.now waiting.now settled.now) }
    {
        let mut queue = Queue::empty(alloc, graph.len())?;
        for node in 0..graph.len() {
            queue.look_at(graph, waiting, settled, node)?;
        }
        Ok(queue)
    }

    /// Where the search for one that isn't settled begins in the row of this node.
    fn place(&self, node: usize) -> usize {
        if node < self.places.len() {
            self.places[node]
        } else {
            0
        }
    }

    /// A node watches one that it uses, which has this place in its row.
    fn watch(&mut self, node: usize, used: usize, place: usize) -> Result<(), AllocError>
        ensures ready { self.new.ready ≡ self.old.ready }
        ensures watchers { OnOk result (self.new.watchers.items ≡ with_watcher used node self.old.watchers.items) }
    {
        if node < self.places.len() {
            self.places[node] = place;
        }
        if used < self.watchers.len() {
            self.watchers[used].push(node)?;
        }
        Ok(())
    }

    /// A node that waits becomes ready, or it watches one that it uses and that isn't settled.
    fn look_at(
        &mut self,
        graph: &[Items<usize>],
        waiting: &[bool],
        settled: &[bool],
        node: usize,
    ) -> Result<(), AllocError>
        requires { OnlyReady graph.now waiting.now settled.now self.old }
        ensures only { OnOk result (OnlyReady graph.now waiting.now settled.now self.new) }
        ensures placed { OnOk result (Waits graph.now waiting.now node → IsPlaced graph.now settled.now self.new node) }
        ensures others { OnOk result ((n : ℕ) → IsPlaced graph.now settled.now self.old n → IsPlaced graph.now settled.now self.new n) }
        ensures same { OnOk result (length self.new.watchers.items ≡ length self.old.watchers.items) }
    {
        if node >= graph.len() || !has_mark(waiting, node) {
            return Ok(());
        }
        let nodes = row(graph, node);
        match unsettled_around(settled, nodes, self.place(node)) {
            Some(at) => self.watch(node, nodes[at], at),
            None => {
                self.ready.insert(node)?;
                Ok(())
            }
        }
    }

    /// The same for each of these nodes.
    pub(crate) fn look_at_each(
        &mut self,
        graph: &[Items<usize>],
        waiting: &[bool],
        settled: &[bool],
        nodes: &[usize],
    ) -> Result<(), AllocError>
        requires { IsQueueBut graph.now waiting.now settled.now self.old nodes.now }
        ensures { OnOk result (IsQueue graph.now waiting.now settled.now self.new) }
    {
        for node in nodes {
            self.look_at(graph, waiting, settled, *node)?;
        }
        Ok(())
    }

    /// Takes out the nodes that watch this one.
    pub(crate) fn take_watchers(&mut self, alloc: Global, node: usize) -> Items<usize>
        ensures ready { self.new.ready ≡ self.old.ready }
        ensures watchers { self.new.watchers.items ≡ slice_set self.old.watchers.items node [] }
        ensures taken { result ≡ row self.old.watchers.items node }
    {
        if node < self.watchers.len() {
            mem::replace(&mut self.watchers[node], Items::new(alloc))
        } else {
            Items::new(alloc)
        }
    }

    /// Takes out the least node that is ready.
    pub(crate) fn pop(&mut self) -> Option<usize>
        ensures gone { HasGone self.old result self.new }
        ensures watchers { self.new.watchers ≡ self.old.watchers }
    {
        self.ready.pop_first()
    }
}
