//! The rows of a graph, and marks on its nodes.

ghost use Rattle.std.specs.Prelude.{◌≡◌};
ghost use Rattle.asl_turns.specs.Graphs.{row, has_mark, all_marked};

use sqlite_items::Items;

/// The nodes that one uses.
pub fn row<'a>(graph: &'a [Items<usize>], node: usize) -> &'a [usize]
    ensures { result.now ≡ row graph.now node }
{
    if node < graph.len() {
        graph[node].as_slice()
    } else {
        &[]
    }
}

/// Whether a node has its mark.
pub fn has_mark(marks: &[bool], node: usize) -> bool
    ensures { result ≡ has_mark marks.now node }
{
    if node < marks.len() {
        marks[node]
    } else {
        false
    }
}

/// Whether each of these nodes has its mark.
pub fn all_marked(marks: &[bool], nodes: &[usize]) -> bool
    ensures { result ≡ all_marked marks.now nodes.now }
{
    for node in nodes {
        if !has_mark(marks, *node) {
            return false;
        }
    }
    true
}
