// Why a call refuses.
ghost use Rattle.std.specs.Prelude.{◌≡◌};
ghost use Rattle.judge.specs.Refusals.{refusal_numbers};

use certificate::TreeFault;
use price::OutOfRange;
use task::{EdgeFault, GraphFault, RowFault, TurnsFault};

/// The question that a call failed, named by what is wrong, with the places that it names.
/// docs/RULES.md has each question.
#[derive(Clone, Copy, Debug, PartialEq, Eq)]
pub enum Refusal {
    NotDraft,
    EdgesFull,
    Edge(EdgeFault),
    EdgeRepeated,
    RowsFull,
    Row(RowFault),
    Graph(GraphFault),
    NotSealed,
    Turns(TurnsFault),
    Tree(TreeFault),
    NothingStands,
    NothingToWithdraw,
    OutOfRange(OutOfRange),
    LineForm,
    ReplyRoom,
}

impl Refusal {
    /// The number of the question, and its two place numbers, 0 where it names none: what a reply prints.
    pub fn numbers(self) -> (u32, usize, usize)
        ensures { result ≡ refusal_numbers self }
    {
        match self {
            Refusal::NotDraft => (1, 0, 0),
            Refusal::EdgesFull | Refusal::Tree(TreeFault::TooManyEdges) => (2, 0, 0),
            Refusal::Edge(EdgeFault::Numbers) => (3, 0, 0),
            Refusal::Edge(EdgeFault::Price) => (4, 0, 0),
            Refusal::EdgeRepeated => (5, 0, 0),
            Refusal::RowsFull | Refusal::Tree(TreeFault::TooManyRows) => (6, 0, 0),
            Refusal::Row(RowFault::Relation) => (7, 0, 0),
            Refusal::Row(RowFault::Numbers) => (8, 0, 0),
            Refusal::Graph(GraphFault::NotOneStart) => (9, 0, 0),
            Refusal::Graph(GraphFault::NotOneEnd) => (10, 0, 0),
            Refusal::Graph(GraphFault::NodeAstray { node }) => (11, node, 0),
            Refusal::NotSealed => (12, 0, 0),
            Refusal::Turns(TurnsFault::Count) => (13, 0, 0),
            Refusal::Turns(TurnsFault::Range { edge }) => (14, edge, 0),
            Refusal::Turns(TurnsFault::Unbalanced { node }) => (15, node, 0),
            Refusal::Turns(TurnsFault::Stranded { edge }) => (16, edge, 0),
            Refusal::Turns(TurnsFault::RowBroken { row }) => (17, row, 0),
            Refusal::Tree(TreeFault::NotOneTree) => (18, 0, 0),
            Refusal::Tree(TreeFault::Range { place }) => (19, place, 0),
            Refusal::Tree(TreeFault::MultiplierSign { leaf, row }) => (20, leaf, row),
            Refusal::Tree(TreeFault::AllowanceShort { leaf, edge }) => (21, leaf, edge),
            Refusal::Tree(TreeFault::BoundTooHigh { leaf }) => (22, leaf, 0),
            Refusal::NothingStands => (23, 0, 0),
            Refusal::NothingToWithdraw => (24, 0, 0),
            Refusal::OutOfRange(OutOfRange::Price) | Refusal::Tree(TreeFault::PriceRange) => {
                (25, 0, 0)
            }
            Refusal::OutOfRange(OutOfRange::Weight) => (26, 0, 0),
            Refusal::LineForm => (27, 0, 0),
            Refusal::ReplyRoom => (28, 0, 0),
        }
    }
}
