// How far a case has come.
use price::{Price, Sense};
use task::Node;

/// How far a claim that stands is proved.
#[derive(Clone, Copy, Debug, PartialEq, Eq)]
pub enum Proof {
    /// No run that keeps every row is better.
    Certified,
}

/// A claim that stands: what it is about, how far it is proved, and its price. Of all its turns those left are yet to be handed out, and the walk stands at a node.
#[derive(Clone, Copy, Debug, PartialEq, Eq)]
pub(crate) struct Standing {
    pub(crate) sense: Sense,
    pub(crate) proof: Proof,
    pub(crate) price: Price,
    pub(crate) all: u32,
    pub(crate) at: Node,
}

/// What a call does depends on the stage.
#[derive(Clone, Copy, Debug, PartialEq, Eq)]
pub(crate) enum Stage {
    /// Edges and rows are taken.
    Draft,
    /// The graph is fixed, between its two ends.
    Sealed {
        start: Node,
        end: Node,
    },
    /// A claim was accepted.
    Standing {
        start: Node,
        end: Node,
        claim: Standing,
    },
    /// A void claim was accepted: no run keeps every row.
    Void {
        start: Node,
        end: Node,
    },
}
