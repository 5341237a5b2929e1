// A task as a case lends it to be judged, and the limits of all tasks.
ghost use Rattle.std.specs.Prelude.{◌≡◌, slice_index};

use crate::edges::Edge;
use crate::numbers::Node;
use crate::rows::Row;

/// As many edges as a case may have.
pub const MAX_EDGES: usize = 64;

/// As many rows as a case may have.
pub const MAX_ROWS: usize = 24;

/// The edges and the rows of a task, its start and its end, which are those that `ends` answers. It lends lists, and nobody prints it.
#[derive(Clone, Copy)]
pub struct Task<'a> {
    pub edges: &'a [Edge],
    pub rows: &'a [Row],
    pub start: Node,
    pub end: Node,
}

/// A flow: the edges of a task, and a number of turns for each. Both lists are lent, the edges by a case and the turns by a claim, and nobody prints them.
#[derive(Clone, Copy)]
pub struct Flow<'a> {
    pub edges: &'a [Edge],
    pub turns: &'a [u32],
}

impl Flow<'_> {
    /// The turns of edge `x`, none past the end of the list.
    pub fn turns_of(self, x: usize) -> u32
        ensures { result ≡ slice_index self.entry.turns.now x }
    {
        self.turns.get(x).copied().unwrap_or(0)
    }
}
