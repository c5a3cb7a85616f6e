//! Which node is next, if each waits until all that it uses is settled.

ghost use Rattle.std.specs.Prelude.{◌≡◌, ◌+◌, map, false, length, slice_set, IfOk, OnSome};
ghost use Rattle.asl_turns.specs.Turns as rules;

use crate::queue::Queue;
use sqlite_items::Items;
use std::alloc::{AllocError, Global};
use std::marker::Model;

/// A graph whose nodes take turns. All turns together take a time that grows with the graph, beside that of a search
/// among those that are ready, which is logarithmic.
#[derive(Drop)]
pub struct Turns {
    /// For each node those that it uses.
    graph: Items<Items<usize>>,
    /// For each node whether it waits.
    waiting: Items<bool>,
    /// For each node whether it is settled.
    settled: Items<bool>,
    queue: Queue,
}

impl Model for Turns {
    ghost use Rattle.asl_turns.specs.Turns.{Marked};

    ghost Value = { Marked };

    ghost use Rattle.asl_turns.specs.private.Queues.{IsQueue};

    ghost view = { λ t. record { graph = t.graph; waiting = t.waiting; settled = t.settled } };

    ghost invariant = { λ t. IsQueue t.graph t.waiting t.settled t.queue };
}

/// No marks on so many nodes.
fn none_settled(alloc: Global, graph: &[Items<usize>]) -> Result<Items<bool>, AllocError>
    ensures { IfOk result (λ marks. marks ≡ rules.none_settled graph.now) }
{
    let mut marks = Items::new(alloc);
    for _row in graph {
        marks.push(false)?;
    }
    Ok(marks)
}

/// Sets the mark of a node, if there is such a node.
fn put(marks: &mut Items<bool>, node: usize, mark: bool)
    ensures { marks.new ≡ slice_set marks.old node mark }
{
    if node < marks.len() {
        marks.set(node, mark);
    }
}

impl Turns {
    /// Before the first turn: no node is settled.
    pub fn new(
        alloc: Global,
        graph: Items<Items<usize>>,
        waiting: Items<bool>,
    ) -> Result<Turns, AllocError>
        ensures { IfOk result (λ turns. turns ≡ rules.begun graph waiting) }
    {
        let settled = none_settled(alloc, graph.as_slice())?;
        let queue = Queue::new(
            alloc,
            graph.as_slice(),
            waiting.as_slice(),
            settled.as_slice(),
        )?;
        Ok(Turns {
            graph,
            waiting,
            settled,
            queue,
        })
    }

    /// The least node that waits and uses only settled ones, if any. It waits no longer.
    pub fn next(&mut self) -> Option<usize>
        ensures turn { result ≡ rules.next_turn self.old }
        ensures after { self.new ≡ rules.turned result self.old }
        ensures fewer { OnSome result (1 + rules.waits self.new.waiting ≡ rules.waits self.old.waiting) }
    {
        let node = self.queue.pop()?;
        put(&mut self.waiting, node, false);
        Some(node)
    }

    /// A node is settled from now on.
    pub fn settle(self, alloc: Global, node: usize) -> Result<Turns, AllocError>
        ensures { IfOk result (λ turns. turns ≡ rules.with_settled node self) }
    {
        let Turns {
            graph,
            waiting,
            mut settled,
            mut queue,
        } = self;
        let watchers = queue.take_watchers(alloc, node);
        put(&mut settled, node, true);
        queue.look_at_each(
            graph.as_slice(),
            waiting.as_slice(),
            settled.as_slice(),
            watchers.as_slice(),
        )?;
        Ok(Turns {
            graph,
            waiting,
            settled,
            queue,
        })
    }
}
