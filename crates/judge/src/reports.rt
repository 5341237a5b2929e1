// What a case tells of itself.
use crate::stages::Proof;
use price::{Price, Sense};

/// The stage; only a claim that stands has more to show.
#[derive(Clone, Copy, Debug, PartialEq, Eq)]
pub enum Report {
    Draft,
    Sealed,
    /// What the claim is about, how far it is proved, its price, the steps handed out since, and the turns left.
    Standing {
        sense: Sense,
        proof: Proof,
        price: Price,
        steps: u32,
        left: u32,
    },
    Void,
}
