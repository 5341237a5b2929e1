// What a tree can fail by.

/// Why a tree does not prove its claim, with the places that the question names; docs/RULES.md has each question. The first three ask for the limits of all tasks again.
#[derive(Clone, Copy, Debug, PartialEq, Eq)]
pub enum TreeFault {
    /// More edges than a case may have.
    TooManyEdges,
    /// More rows than a case may have.
    TooManyRows,
    /// A claimed price that no turns of a case can have.
    PriceRange,
    /// The list is not one tree, or a leaf stands under more than 12 splits.
    NotOneTree,
    /// The first number of the list that is out of range.
    Range { place: usize },
    MultiplierSign { leaf: usize, row: usize },
    AllowanceShort { leaf: usize, edge: usize },
    BoundTooHigh { leaf: usize },
}
