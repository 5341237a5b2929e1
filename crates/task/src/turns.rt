// Whether turns are sound: those that a run can have, and that keep every row.
ghost use Rattle.std.specs.Prelude.{◌≡◌, ◌*◌, ◌^◌, ◌≤◌, ◌↔◌, length, Ok};
ghost use Rattle.task.specs.Lowest.{first};
ghost use Rattle.task.specs.Sealing.{Ends};
ghost use Rattle.task.specs.Sides.{node_count};
ghost use Rattle.task.specs.Sound.{Checked, Sound, Walkable};
ghost use Rattle.task.specs.TurnsAnswer.{over, stranded, turns_answer, turns_at, unbalanced};

use crate::edges::Side;
use crate::faults::TurnsFault;
use crate::numbers::Node;
use crate::sealing::nodes;
use crate::tasks::{Flow, Task};

/// As many turns as an edge may have.
pub const MAX_TURNS: u32 = 1_048_575;

impl Flow<'_> {
    // The lowest edge with too many turns.
    fn first_over(self) -> Option<usize>
        ensures { result ≡ first (over self.entry.turns.now) (length self.entry.turns.now) }
    {
        self.turns.iter().position(|turns| *turns > MAX_TURNS)
    }

    // The turns of the edges that have the node on that side, added up: a `for`, since each number's range bounds the sum.
    fn turns_at(self, side: Side, node: usize) -> u128
        ensures sum { result ≡ turns_at side node self.entry.edges.now self.entry.turns.now }
        ensures small { result ≤ 2 ^ 32 * 2 ^ 64 }
    {
        let mut sum = 0;
        for (x, edge) in self.edges.iter().enumerate() {
            if edge.node(side).index() == node {
                sum += u128::from(self.turns_of(x));
            }
        }
        sum
    }

    // Whether the turns entering the node, one more at the start, differ from those leaving it, one more at the end.
    fn is_unbalanced(self, start: Node, end: Node, node: usize) -> bool
        ensures { result ≡ unbalanced self.entry.edges.now start end self.entry.turns.now node }
    {
        let entering = self.turns_at(Side::Head, node) + u128::from(node == start.index());
        let leaving = self.turns_at(Side::Tail, node) + u128::from(node == end.index());
        entering != leaving
    }

    // The lowest node out of balance.
    fn first_unbalanced(self, start: Node, end: Node) -> Option<usize>
        ensures { result ≡ first (unbalanced self.entry.edges.now start end self.entry.turns.now) (node_count self.entry.edges.now) }
    {
        (0..nodes(self.edges)).find(|node| self.is_unbalanced(start, end, *node))
    }

    // The lowest edge with turns from whose head edges with turns do not lead to the end.
    fn first_stranded(self, end: Node) -> Option<usize>
        ensures { result ≡ first (stranded self.entry.edges.now end self.entry.turns.now) (length self.entry.edges.now) }
    {
        let to_end = self.joined_to(Side::Tail, end);
        self.edges
            .iter()
            .enumerate()
            .position(|(x, edge)| self.is_live(x) && !to_end[edge.head.index()])
    }
}

impl Task<'_> {
    // The questions in their order.
    fn ask_turns(&self, turns: &[u32]) -> Result<(), TurnsFault>
        ensures { result ≡ turns_answer self.now.edges.now self.now.rows.now self.now.start self.now.end turns.now }
    {
        if turns.len() != self.edges.len() {
            return Err(TurnsFault::Count);
        }
        let flow = Flow {
            edges: self.edges,
            turns,
        };
        if let Some(edge) = flow.first_over() {
            return Err(TurnsFault::Range { edge });
        }
        if let Some(node) = flow.first_unbalanced(self.start, self.end) {
            return Err(TurnsFault::Unbalanced { node });
        }
        if let Some(edge) = flow.first_stranded(self.end) {
            return Err(TurnsFault::Stranded { edge });
        }
        if let Some(row) = flow.first_broken(self.rows) {
            return Err(TurnsFault::RowBroken { row });
        }
        Ok(())
    }

    /// Accepts turns for every edge that are in range, balance at every node, join every edge with turns to the end, and keep every row.
    pub fn check_turns(&self, turns: &[u32]) -> Result<(), TurnsFault>
        ensures answer { result ≡ turns_answer self.now.edges.now self.now.rows.now self.now.start self.now.end turns.now }
        ensures means { Checked self.now.edges.now self.now.rows.now self.now.start self.now.end turns.now result }
        ensures exact { (result ≡ Ok tt) ↔ Sound self.now.edges.now self.now.rows.now self.now.start self.now.end turns.now }
        ensures claims { result ≡ Ok tt → Ends self.now.edges.now self.now.start self.now.end → Walkable self.now.edges.now self.now.start self.now.end turns.now }
    {
        self.ask_turns(turns)
    }
}
