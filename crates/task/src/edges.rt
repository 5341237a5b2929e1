// The edges of a graph.
ghost use Rattle.std.specs.Prelude.{◌≡◌, ◌↔◌, IsTrue, nat_le};
ghost use Rattle.price.specs.Questions.{ask};
ghost use Rattle.task.specs.Edges.{edge_made, repeated, Repeats};
ghost use Rattle.task.specs.Sides.{end_at, other_side};
ghost use Rattle.task.specs.Turns.{price_in};

use crate::faults::EdgeFault;
use crate::numbers::Node;
use price::Sense;

const MAX_BLOCK: u8 = 63;

/// The numbers of a new edge as they come, before they are asked for their ranges: a tail, a head, a block, and what a turn costs.
#[derive(Clone, Copy, Debug, PartialEq, Eq)]
pub struct NewEdge {
    pub tail: u32,
    pub head: u32,
    pub block: u32,
    pub cycles: u32,
    pub reads: u32,
}

/// What one turn of an edge costs.
#[derive(Clone, Copy, Debug, PartialEq, Eq)]
pub struct Cost {
    pub cycles: u16,
    pub reads: u16,
}

/// An edge from one node to another: the block that it carries, and the price of a turn.
#[derive(Clone, Copy, Debug, PartialEq, Eq)]
pub struct Edge {
    pub tail: Node,
    pub head: Node,
    pub block: u8,
    pub price: Cost,
}

// The two ends of an edge: the contracts speak of a side, which two closures would not name.
#[derive(Clone, Copy)]
pub(crate) enum Side {
    Tail,
    Head,
}

// The number of a block.
fn numbered(number: u32) -> Result<u8, EdgeFault>
    ensures { result ≡ ask (nat_le number 63) EdgeFault.Numbers (Ok number) }
{
    u8::try_from(number)
        .ok()
        .filter(|number| *number <= MAX_BLOCK)
        .ok_or(EdgeFault::Numbers)
}

// One part of an edge's price.
fn part(number: u32) -> Result<u16, EdgeFault>
    ensures { result ≡ ask (nat_le number 65535) EdgeFault.Price (Ok number) }
{
    u16::try_from(number).map_err(|_| EdgeFault::Price)
}

impl Edge {
    /// The edge of these numbers: nodes at most 31, a block at most 63, and at most 65,535 cycles and reads.
    pub fn new(numbers: NewEdge) -> Result<Edge, EdgeFault>
        ensures { result ≡ edge_made numbers }
    {
        Ok(Edge {
            tail: Node::new(numbers.tail)?,
            head: Node::new(numbers.head)?,
            block: numbered(numbers.block)?,
            price: Cost {
                cycles: part(numbers.cycles)?,
                reads: part(numbers.reads)?,
            },
        })
    }

    /// The price of a turn that counts in this sense.
    pub fn price(&self, sense: Sense) -> Cost
        ensures { result ≡ price_in sense self.now }
    {
        match sense {
            Sense::Longest => self.price,
        }
    }

    // The node on that side.
    pub(crate) fn node(&self, side: Side) -> Node
        ensures { result ≡ end_at side self.now }
    {
        match side {
            Side::Tail => self.tail,
            Side::Head => self.head,
        }
    }
}

impl Side {
    pub(crate) fn other(self) -> Side
        ensures { result ≡ other_side self }
    {
        match self {
            Side::Tail => Side::Head,
            Side::Head => Side::Tail,
        }
    }
}

/// Whether some edge of the list has the tail and the head of this one.
pub fn repeats(edges: &[Edge], edge: &Edge) -> bool
    ensures answer { result ≡ repeated edge.now edges.now }
    ensures means { IsTrue result ↔ Repeats edges.now edge.now }
{
    edges
        .iter()
        .any(|other| (other.tail, other.head) == (edge.tail, edge.head))
}
