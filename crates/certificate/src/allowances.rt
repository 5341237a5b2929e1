// What an edge and a whole run may cost at a leaf.
ghost use Rattle.std.specs.Prelude.{◌≡◌, ◌+◌, ◌*◌, ◌<◌, length, ◌+ℤ◌, ◌-ℤ◌};
ghost use Rattle.certificate.specs.Columns.{charged, entries};
ghost use Rattle.certificate.specs.Held.{leaf_held, lines_of};
ghost use Rattle.certificate.specs.Lines.{allowance, bound, potential};
ghost use Rattle.price.specs.Pairs.{◌⊕◌, ◌⊖◌};
ghost use Rattle.price.specs.Ranges.{Part, Within};
ghost use Rattle.task.specs.Graph.{edge_at};

use crate::leaf::{Column, Leaf};
use crate::prices::price_of;
use price::Price;
use task::Node;

// A part of a difference of potentials, and of what the rows charge.
fn part(before: i64, after: i64, charge: i64) -> i64
    requires { (Within 67108864 before) × (Within 67108864 after) × (Within (70368811286528 * 36) charge) }
    ensures value { result ≡ before -ℤ after +ℤ charge }
    ensures small { Part result }
{
    before - after + charge
}

impl Leaf<'_> {
    // A difference of potentials, and what the rows charge.
    fn level(&self, from: Node, to: Node, column: Column) -> Price
        ensures { result ≡ potential (leaf_held self.now) from ⊖ potential (leaf_held self.now) to ⊕ charged (entries column self.now.claim.task.now.rows.now self.now.path.now) (leaf_held self.now).multipliers (length self.now.claim.task.now.rows.now + length self.now.path.now) }
    {
        let before = self.potential(from);
        let after = self.potential(to);
        let charge = self.charge(column);
        price_of(
            part(before.0, after.0, charge.0),
            part(before.1, after.1, charge.1),
        )
    }

    // What an edge may cost.
    pub(crate) fn allowance(&self, i: usize) -> Price
        requires { i < length self.now.claim.task.now.edges.now }
        ensures { result ≡ allowance (lines_of self.now) (leaf_held self.now) i (edge_at self.now.claim.task.now.edges.now i) }
    {
        let edge = self.claim.task.edges[i];
        let column = Column::Edge {
            number: i,
            block: edge.block,
        };
        self.level(edge.tail, edge.head, column)
    }

    // What a whole run may cost.
    pub(crate) fn bound(&self) -> Price
        ensures { result ≡ bound self.now.claim.task.now.start self.now.claim.task.now.end (lines_of self.now) (leaf_held self.now) }
    {
        self.level(self.claim.task.start, self.claim.task.end, Column::Limit)
    }
}
