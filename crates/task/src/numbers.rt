// The numbers of nodes.
ghost use Rattle.std.specs.Prelude.{◌≡◌, ◌<◌, ◌≤◌, nat_le, Ok, Some};
ghost use Rattle.price.specs.Questions.{ask};

use crate::faults::EdgeFault;
use std::marker::Model;

/// As many nodes as there are numbers for: the length of each table by nodes. These are arrays, since judging takes no memory.
pub const NODES: usize = 32;

const MAX_NODE: u8 = 31;

/// The number of a node, from 0 to 31.
#[derive(Clone, Copy, Debug, PartialEq, Eq)]
pub struct Node {
    number: u8,
}

impl Model for Node {
    ghost use Rattle.std.specs.Prelude.{ℕ, ◌<◌};

    ghost Value = { ℕ };

    ghost view = { λ n. n.number };

    ghost invariant = { λ n. n.number < 32 };

    ghost inverse = { λ n. record { number = n } };
}

impl Node {
    /// The node of this number, refused above 31.
    pub fn new(number: u32) -> Result<Node, EdgeFault>
        ensures { result ≡ ask (nat_le number 31) EdgeFault.Numbers (Ok number) }
    {
        match u8::try_from(number) {
            Ok(number) if number <= MAX_NODE => Ok(Node { number }),
            _ => Err(EdgeFault::Numbers),
        }
    }

    // The node at this place of a table by nodes.
    pub(crate) fn at(place: usize) -> Option<Node>
        ensures { place < 32 → result ≡ Some place }
    {
        match u8::try_from(place) {
            Ok(number) if number <= MAX_NODE => Some(Node { number }),
            _ => None,
        }
    }

    /// Where the node stands in a table by nodes.
    pub fn index(self) -> usize
        ensures place { result ≡ self }
        ensures low { result < 32 }
    {
        usize::from(self.number)
    }
}

impl Default for Node {
    ghost is_default = { λ n. n ≡ 0 };

    fn default() -> Node {
        Node { number: 0 }
    }
}
