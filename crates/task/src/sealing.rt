// The start and the end of a graph.
ghost use Rattle.std.specs.Prelude.{◌≡◌, ℕ, ◌<◌, ◌≤◌, ◌↔◌, Ok};
ghost use Rattle.task.specs.EndsAnswer.{astray, ends_answer};
ghost use Rattle.task.specs.Lowest.{first, FirstFrom, sole};
ghost use Rattle.task.specs.Sealing.{Ends, EveryEdge, Sealed};
ghost use Rattle.task.specs.Sides.{node_count, touched, untouched};

use crate::edges::{Edge, Side};
use crate::faults::GraphFault;
use crate::numbers::Node;
use crate::tasks::Flow;

/// How many nodes there are: one more than the highest number that an edge names.
pub fn nodes(edges: &[Edge]) -> usize
    ensures count { result ≡ node_count edges.now }
    ensures few { result ≤ 32 }
{
    edges
        .iter()
        .map(|edge| edge.tail.index().max(edge.head.index()))
        .max()
        .map_or(0, |highest| highest + 1)
}

// Whether some edge has the node on that side.
fn touches(edges: &[Edge], side: Side, node: usize) -> bool
    ensures { result ≡ touched side node edges.now }
{
    edges.iter().any(|edge| edge.node(side).index() == node)
}

// The lowest node from `from` on, below `count`, that no edge has on that side.
fn first_free(edges: &[Edge], side: Side, from: usize, count: usize) -> Option<usize>
    ensures { FirstFrom (untouched side edges.now) from count result }
{
    (from..count).find(|node| !touches(edges, side, *node))
}

// The only node that no edge has on that side.
fn only_free(edges: &[Edge], side: Side) -> Option<Node>
    ensures { result ≡ sole (untouched side edges.now) (node_count edges.now) }
{
    let count = nodes(edges);
    let only = first_free(edges, side, 0, count)?;
    match first_free(edges, side, only + 1, count) {
        Some(_) => None,
        None => Node::at(only),
    }
}

// The lowest node on no path from the start to the end.
fn first_astray(edges: &[Edge], start: Node, end: Node) -> Option<usize>
    ensures { result ≡ first (astray edges.now start end) (node_count edges.now) }
{
    // without a list of turns every edge may be taken
    let every_edge = Flow { edges, turns: &[] };
    let from_start = every_edge.joined_to(Side::Head, start);
    let to_end = every_edge.joined_to(Side::Tail, end);
    (0..nodes(edges)).find(|node| !(from_start[*node] && to_end[*node]))
}

// The questions in their order.
fn find_ends(edges: &[Edge]) -> Result<(Node, Node), GraphFault>
    ensures { result ≡ ends_answer edges.now }
{
    let start = only_free(edges, Side::Head).ok_or(GraphFault::NotOneStart)?;
    let end = only_free(edges, Side::Tail).ok_or(GraphFault::NotOneEnd)?;
    match first_astray(edges, start, end) {
        Some(node) => Err(GraphFault::NodeAstray { node }),
        None => Ok((start, end)),
    }
}

/// The start and the end, as a pair: the only node that no edge enters, and the only one that no edge leaves. Every node lies on a path between them.
pub fn ends(edges: &[Edge]) -> Result<(Node, Node), GraphFault>
    ensures answer { result ≡ ends_answer edges.now }
    ensures means { Sealed edges.now result }
    ensures exact { (start end : ℕ) → (result ≡ Ok (start, end)) ↔ Ends edges.now start end }
    ensures law { (start end : ℕ) → result ≡ Ok (start, end) → EveryEdge edges.now start end }
{
    find_ends(edges)
}
