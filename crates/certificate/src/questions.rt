// The questions of a leaf, each asked of the tariff.
ghost use Rattle.std.specs.Prelude.{◌≡◌, ◌+◌, ◌<◌, length, slice_index_or};
ghost use Rattle.certificate.specs.Held.{leaf_held, lines_of};
ghost use Rattle.certificate.specs.LeafTests.{bound_ok, edge_ok, row_ok};
ghost use Rattle.certificate.specs.Lines.{no_line};
ghost use Rattle.certificate.specs.Tasks.{task_of};
ghost use Rattle.task.specs.Graph.{edge_at};

use crate::leaf::Leaf;
use crate::prices::price_of;
use price::Tariff;
use task::Relation;

impl Leaf<'_> {
    // The relation of a row of the leaf; those past the rows of the task are of the path.
    fn relation(&self, row: usize) -> Relation
        ensures { result ≡ (slice_index_or (lines_of self.now) row no_line).relation }
    {
        match self.claim.task.rows.get(row) {
            Some(row) => row.relation(),
            None => Relation::AtMost,
        }
    }

    // Whether (0, 0) is no dearer than the multiplier of the row, unless it wants equality.
    pub(crate) fn sign_passes<T: Tariff>(&self, tariff: &T, row: usize) -> bool
        requires { row < length self.now.claim.task.now.rows.now + length self.now.path.now }
        ensures { result ≡ row_ok (T.le tariff.now) (leaf_held self.now) row (slice_index_or (lines_of self.now) row no_line) }
    {
        match self.relation(row) {
            Relation::Equal => true,
            Relation::Below | Relation::AtMost => {
                let (cycles, reads) = self.multiplier(row);
                tariff.compare(price_of(0, 0), price_of(cycles, reads))
            }
        }
    }

    // Whether D times the edge's price is no dearer than its allowance.
    pub(crate) fn edge_passes<T: Tariff>(&self, tariff: &T, i: usize) -> bool
        requires { i < length self.now.claim.task.now.edges.now }
        ensures { result ≡ edge_ok (T.le tariff.now) self.now.claim.sense (lines_of self.now) (leaf_held self.now) i (edge_at self.now.claim.task.now.edges.now i) }
    {
        let price = self.scaled_price(&self.claim.task.edges[i]);
        tariff.compare(price, self.allowance(i))
    }

    // Whether the bound is cheaper than D times one unit more than the claimed price.
    pub(crate) fn bound_passes<T: Tariff>(&self, tariff: &T) -> bool
        ensures { result ≡ bound_ok (T.le tariff.now) (T.unit tariff.now) (task_of self.now.claim.task.now) self.now.claim.price.now (lines_of self.now) (leaf_held self.now) }
    {
        let claimed = self.claim.price;
        let step = tariff.unit();
        let past = self.multiple(
            claimed.cycles() + step.cycles(),
            claimed.reads() + step.reads(),
        );
        !tariff.compare(past, self.bound())
    }
}
