// What can be wrong with an edge, a row, a graph or turns. docs/RULES.md has each question.

/// Why numbers make no edge.
#[derive(Clone, Copy, Debug, PartialEq, Eq)]
pub enum EdgeFault {
    /// A node above 31, or a block above 63.
    Numbers,
    /// Cycles or reads above 65,535.
    Price,
}

/// Why numbers make no row.
#[derive(Clone, Copy, Debug, PartialEq, Eq)]
pub enum RowFault {
    /// A relation that is not 0, 1 or 2.
    Relation,
    /// k or a coefficient out of range, or more than 64 coefficients.
    Numbers,
}

/// Why a graph cannot be sealed.
#[derive(Clone, Copy, Debug, PartialEq, Eq)]
pub enum GraphFault {
    NotOneStart,
    NotOneEnd,
    /// The lowest node on no path between the two ends.
    NodeAstray { node: usize },
}

/// Why turns are those of no run that keeps the rows; each place is the lowest that fails.
#[derive(Clone, Copy, Debug, PartialEq, Eq)]
pub enum TurnsFault {
    /// Not as many as edges.
    Count,
    Range { edge: usize },
    Unbalanced { node: usize },
    Stranded { edge: usize },
    RowBroken { row: usize },
}
