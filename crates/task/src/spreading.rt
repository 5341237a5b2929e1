// Which nodes are joined to a node.
ghost use Rattle.std.specs.Prelude.{◌≡◌, ℕ, ◌<◌, true, false, length, slice_index_or};
ghost use Rattle.task.specs.Sides.{is_live, reaches};
ghost use Rattle.task.specs.Spreading.{Pass, ToMark};

use crate::edges::Side;
use crate::numbers::{NODES, Node};
use crate::tasks::Flow;

impl Flow<'_> {
    // Whether edge `x` may be taken: it has turns, or the list of turns does not reach so far.
    pub(crate) fn is_live(self, x: usize) -> bool
        ensures { result ≡ is_live self.entry.turns.now x }
    {
        self.turns.get(x).copied().unwrap_or(1) > 0
    }

    // The node that edge `x` is to mark: it is live, leads to a marked node, and comes from this one, which has no mark.
    fn to_mark(self, x: usize, side: Side, marks: &[bool; NODES]) -> Option<usize>
        requires { x < length self.edges.now }
        ensures { ToMark self.entry.edges.now self.entry.turns.now side marks.now x result }
    {
        let edge = &self.edges[x];
        let from = edge.node(side).index();
        let to = edge.node(side.other()).index();
        (!marks[from] && marks[to] && self.is_live(x)).then_some(from)
    }

    // One pass over the edges: marks each node from which a live edge leads to a marked one, and tells whether there was none.
    // It goes from the last edge to the first: most edges lead to a node that later edges leave, so that few passes find all that reach the end.
    fn spread(self, side: Side, marks: &mut [bool; NODES]) -> bool
        ensures { Pass self.entry.edges.now self.entry.turns.now side marks.old marks.new result 0 }
    {
        let mut settled = true;
        for x in (0..self.edges.len()).rev() {
            if let Some(from) = self.to_mark(x, side, marks) {
                marks[from] = true;
                settled = false;
            }
        }
        settled
    }

    // A pass from the first edge to the last, for edges that are listed the other way round. It does not tell whether there was none.
    fn spread_on(self, side: Side, marks: &mut [bool; NODES])
        ensures { Pass self.entry.edges.now self.entry.turns.now side marks.old marks.new true (length self.entry.edges.now) }
    {
        for x in 0..self.edges.len() {
            if let Some(from) = self.to_mark(x, side, marks) {
                marks[from] = true;
            }
        }
    }

    // Marks the nodes joined to `goal` by live edges: from tail to head those that reach it (`Side::Tail`), and those reached from it (`Side::Head`).
    pub(crate) fn joined_to(self, side: Side, goal: Node) -> [bool; NODES]
        ensures { (v : ℕ) → slice_index_or result v false ≡ reaches self.entry.edges.now self.entry.turns.now side goal v }
    {
        let mut marks = [false; NODES];
        marks[goal.index()] = true;
        let mut settled = false;
        while !settled {
            settled = self.spread(side, &mut marks);
            if !settled {
                self.spread_on(side, &mut marks);
            }
        }
        marks
    }
}
