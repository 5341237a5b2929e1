// What may be asked of a case, and what it answers.

use judge::Report;
use price::Price;
use task::{NewEdge, Node};

/// A call, with the numbers and lists handed to it, as it is written; nobody prints or compares one.
#[derive(Clone, Copy)]
pub enum Call<'a> {
    Edge(NewEdge),
    Row {
        relation: i32,
        k: i32,
        coefficients: &'a [i32],
    },
    Seal,
    Claim {
        turns: &'a [u32],
        tree: &'a [i32],
    },
    Void {
        tree: &'a [i32],
    },
    Step,
    Withdraw,
    Told,
}

/// What a call answers, where it does not refuse.
#[derive(Clone, Copy, Debug, PartialEq, Eq)]
pub enum Answer {
    /// The number of the new edge or row.
    Number(usize),
    /// The start and the end.
    Ends(Node, Node),
    /// The price of a claim that stands from then on.
    Price(Price),
    /// The next edge of the run of the claim.
    Next(usize),
    /// All of the run has been handed out.
    Done,
    /// Accepted, with nothing more to say.
    Agreed,
    /// What the case tells of itself.
    Told(Report),
}
