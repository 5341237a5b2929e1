// The turns of every edge, as a case keeps them.
ghost use Rattle.std.specs.Prelude.{◌≡◌, ◌≤◌, length, sum};
ghost use Rattle.task.specs.Graph.{head_of};
ghost use Rattle.walk.specs.Walks.{one_less};

use arrayvec::ArrayVec;
use task::{Edge, MAX_EDGES, Node};

// They lie in the case itself, since no call on a case takes memory.
pub(crate) type Turns = ArrayVec<u32, MAX_EDGES>;

// All turns together.
pub(crate) fn total(turns: &[u32]) -> u32
    requires { sum turns.now ≤ 67108800 }
    ensures { result ≡ sum turns.now }
{
    turns.iter().copied().sum()
}

// Holds these turns and no others.
pub(crate) fn refill(left: &mut Turns, turns: &[u32])
    requires { length turns.now ≤ 64 }
    ensures { left.new.items ≡ turns.now }
{
    left.clear();
    let _they_fit = left.try_extend_from_slice(turns);
}

// One turn of the edge less.
pub(crate) fn use_turn(left: &mut Turns, edge: usize)
    ensures { left.new.items ≡ one_less left.old.items edge }
{
    if let Some(turns) = left.get_mut(edge) {
        *turns = turns.saturating_sub(1);
    }
}

// The node that the edge enters: 0 past the last edge.
pub(crate) fn head_of(edges: &[Edge], edge: usize) -> Node
    ensures { result ≡ head_of edges.now edge }
{
    edges.get(edge).map_or(Node::default(), |edge| edge.head)
}
