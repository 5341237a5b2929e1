// A leaf is judged: the signs of its multipliers, its edges, its bound.
// The loops go by number, since a refusal names numbers.
ghost use Rattle.std.specs.Prelude.{◌≡◌};
ghost use Rattle.certificate.specs.Held.{leaf_held, lines_of};
ghost use Rattle.certificate.specs.Tasks.{task_of};
ghost use Rattle.certificate.specs.Verdicts.{edges_answer, leaf_answer, signs_answer};

use crate::faults::TreeFault;
use crate::leaf::Leaf;
use price::Tariff;

impl Leaf<'_> {
    // Asks the rows in rising order, those of the task first. A loop over their numbers in a labelled block, which is left with the leaf and the row at fault.
    fn ask_signs<T: Tariff>(&self, tariff: &T) -> Result<(), TreeFault>
        ensures { result ≡ signs_answer (T.le tariff.now) (lines_of self.now) (leaf_held self.now) self.now.number }
    {
        'rows: {
            for row in 0..self.rows() {
                if !self.sign_passes(tariff, row) {
                    break 'rows Err(TreeFault::MultiplierSign {
                        leaf: self.number,
                        row,
                    });
                }
            }
            Ok(())
        }
    }

    // Asks the edges in rising order, in a loop of the same form.
    fn ask_edges<T: Tariff>(&self, tariff: &T) -> Result<(), TreeFault>
        ensures { result ≡ edges_answer (T.le tariff.now) (task_of self.now.claim.task.now) self.now.claim.sense (lines_of self.now) (leaf_held self.now) self.now.number }
    {
        'edges: {
            for edge in 0..self.claim.task.edges.len() {
                if !self.edge_passes(tariff, edge) {
                    break 'edges Err(TreeFault::AllowanceShort {
                        leaf: self.number,
                        edge,
                    });
                }
            }
            Ok(())
        }
    }

    // The first question of the leaf that fails.
    pub(crate) fn judge<T: Tariff>(&self, tariff: &T) -> Result<(), TreeFault>
        ensures { result ≡ leaf_answer (T.le tariff.now) (T.unit tariff.now) (task_of self.now.claim.task.now) self.now.claim.sense self.now.claim.price.now (lines_of self.now) (leaf_held self.now) self.now.number }
    {
        self.ask_signs(tariff)?;
        self.ask_edges(tariff)?;
        if self.bound_passes(tariff) {
            Ok(())
        } else {
            Err(TreeFault::BoundTooHigh { leaf: self.number })
        }
    }
}
