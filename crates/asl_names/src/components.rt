//! Numbers for the nodes of a graph: those that reach one another have the same one, and no node uses one of a greater
//! number.

ghost use Rattle.std.specs.Prelude.{◌≡◌, true, IfOk};
ghost use Rattle.asl_names.specs.private.Components as numbers;
ghost use Rattle.asl_names.specs.private.Ways as rules;

use asl_turns::row;
use sqlite_items::Items;
use std::alloc::{AllocError, Global};

/// The number of a node, 0 where it has none.
fn level(levels: &[usize], node: usize) -> usize
    ensures { result ≡ numbers.level levels.now node }
{
    if node < levels.len() { levels[node] } else { 0 }
}

/// Whether one of these nodes has this number.
fn has_level(levels: &[usize], nodes: &[usize], number: usize) -> bool
    ensures { result ≡ numbers.has_level levels.now nodes.now number }
{
    for node in nodes {
        if level(levels, *node) == number {
            return true;
        }
    }
    false
}

/// Whether none of these nodes has a greater number than this.
fn are_below(levels: &[usize], nodes: &[usize], number: usize) -> bool
    ensures { result ≡ numbers.are_below levels.now nodes.now number }
{
    for node in nodes {
        if level(levels, *node) > number {
            return false;
        }
    }
    true
}

/// Whether no node uses one of a greater number.
#[tactic(auto, using(crate::proofs::ComponentLemmas::falling_next, crate::proofs::ComponentLemmas::falling_all))]
fn is_falling(graph: &[Items<usize>], levels: &[usize]) -> bool
    ensures { result ≡ true → numbers.IsFalling graph.now levels.now }
{
    for node in 0..graph.len() {
        if !are_below(levels, row(graph, node), level(levels, node)) {
            return false;
        }
    }
    true
}

// ---- a search in depth

/// A node that is being searched, and how many of those that it uses were looked at.
#[derive(Clone, Copy)]
struct Visit {
    node: usize,
    seen: usize,
}

/// How far a search has come.
#[derive(Drop)]
struct Search {
    /// Of each node its number in the order in which they were met, 0 where it wasn't.
    met: Items<usize>,
    /// Of each node the least such number that is known to be reached from it.
    low: Items<usize>,
    /// Of each node the number of those that reach one another, 0 where that isn't known.
    levels: Items<usize>,
    /// The nodes from the first to the one that is searched.
    path: Vec<Visit>,
    /// The nodes that were met, and whose number isn't known.
    open: Vec<usize>,
    /// The next node to begin with.
    root: usize,
}

fn zeros(alloc: Global, count: usize) -> Result<Items<usize>, AllocError> {
    Ok(Items::from_vec(vec![in alloc; 0usize; count]?))
}

fn put(items: &mut Items<usize>, node: usize, number: usize) {
    if node < items.len() {
        items.set(node, number);
    }
}

/// The number of a node becomes at most this.
fn lower(items: &mut Items<usize>, node: usize, number: usize) {
    if number < level(items.as_slice(), node) {
        put(items, node, number);
    }
}

impl Search {
    fn new(alloc: Global, count: usize) -> Result<Search, AllocError> {
        Ok(Search {
            met: zeros(alloc, count)?,
            low: zeros(alloc, count)?,
            levels: zeros(alloc, count)?,
            path: Vec::new(alloc),
            open: Vec::new(alloc),
            root: 0,
        })
    }

    /// A node that is met.
    fn meet(&mut self, node: usize, number: usize) -> Result<(), AllocError> {
        put(&mut self.met, node, number);
        put(&mut self.low, node, number);
        self.open.push(node)?;
        self.path.push(Visit { node, seen: 0 })?;
        Ok(())
    }

    /// The next node to begin with, where it wasn't met.
    fn begin(&mut self, number: usize) -> Result<(), AllocError> {
        let root = self.root;
        if root < self.met.len() {
            self.root = root + 1;
            if level(self.met.as_slice(), root) == 0 {
                self.meet(root, number)?;
            }
        }
        Ok(())
    }

    /// A node uses another.
    fn follow(&mut self, from: usize, to: usize, number: usize) -> Result<(), AllocError> {
        let met = level(self.met.as_slice(), to);
        if met == 0 {
            self.meet(to, number)?;
        } else if level(self.levels.as_slice(), to) == 0 {
            lower(&mut self.low, from, met);
        }
        Ok(())
    }

    /// The open nodes down to this one reach one another.
    fn number_down_to(&mut self, node: usize, number: usize) {
        for _ in 0..self.open.len() {
            let Some(top) = self.open.pop() else {
                return;
            };
            put(&mut self.levels, top, number);
            if top == node {
                return;
            }
        }
    }

    /// All that a node uses was looked at.
    fn end(&mut self, node: usize, number: usize) {
        let low = level(self.low.as_slice(), node);
        if low == level(self.met.as_slice(), node) {
            self.number_down_to(node, number);
        } else if let Some(user) = self.path.last().copied() {
            lower(&mut self.low, user.node, low);
        }
    }

    /// One step: a node that is used, the end of one, or one to begin with.
    fn step(&mut self, graph: &[Items<usize>], number: usize) -> Result<(), AllocError> {
        let Some(visit) = self.path.pop() else {
            return self.begin(number);
        };
        let used = row(graph, visit.node);
        if visit.seen < used.len() {
            let to = used[visit.seen];
            self.path.push(Visit {
                node: visit.node,
                seen: visit.seen + 1,
            })?;
            self.follow(visit.node, to, number)
        } else {
            self.end(visit.node, number);
            Ok(())
        }
    }
}

/// How many steps a search takes: for each node its beginning and its end, and each use.
fn steps(graph: &[Items<usize>]) -> usize {
    let mut steps: usize = graph.len();
    for used in graph {
        steps = steps.saturating_add(used.len()).saturating_add(1);
    }
    steps
}

/// Numbers for the nodes, in a time that grows with them and their uses.
fn numbers_of(alloc: Global, graph: &[Items<usize>]) -> Result<Items<usize>, AllocError> {
    let mut search = Search::new(alloc, graph.len())?;
    for step in 0..steps(graph) {
        search.step(graph, step + 1)?;
    }
    Ok(search.levels)
}

/// Numbers for the nodes of a graph, and whether no node uses one of a greater number.
#[derive(Drop)]
pub(crate) struct Levels {
    numbers: Items<usize>,
    is_falling: bool,
}

/// Numbers for the nodes of a graph, in a time that grows with its nodes and their uses.
pub(crate) fn levels_of(alloc: Global, graph: &[Items<usize>]) -> Result<Levels, AllocError>
    ensures { IfOk result (λ levels. levels.is_falling ≡ true → numbers.IsFalling graph.now levels.numbers) }
{
    let found = numbers_of(alloc, graph)?;
    let is_falling = is_falling(graph, found.as_slice());
    Ok(Levels {
        numbers: found,
        is_falling,
    })
}

impl Levels {
    /// Whether a node may reach itself: it uses one of its own number.
    #[tactic(auto, using(crate::proofs::ComponentLemmas::peer))]
    pub(crate) fn may_return(&self, graph: &[Items<usize>], node: usize) -> bool
        requires { self.now.is_falling ≡ true → numbers.IsFalling graph.now self.now.numbers }
        ensures { rules.HasWay graph.now node node → result ≡ true }
    {
        let levels = self.numbers.as_slice();
        !self.is_falling || has_level(levels, row(graph, node), level(levels, node))
    }
}
