// The judge of a whole tree: a loop over the records of its list.
ghost use Rattle.std.specs.Prelude.{◌≡◌, ◌≤◌, unsigned_abs};
ghost use Rattle.std.specs.List.{All};
ghost use Rattle.certificate.specs.Ahead.{records};
ghost use Rattle.certificate.specs.Held.{held, leaf_held, lines_of};
ghost use Rattle.certificate.specs.Lines.{leaf_of};
ghost use Rattle.certificate.specs.Ready.{Bounded, Small};
ghost use Rattle.certificate.specs.Splits.{branches_of, lines_at};
ghost use Rattle.certificate.specs.Tasks.{task_of};
ghost use Rattle.certificate.specs.Trees.{Spells, Tree};
ghost use Rattle.certificate.specs.Verdicts.{record_answer, tree_answer};

use crate::branches::Path;
use crate::claims::Claim;
use crate::faults::TreeFault;
use crate::leaf::Leaf;
use crate::reading::Record;
use crate::records::Records;
use crate::shapes::Shape;
use price::Tariff;

impl<'a> Claim<'a> {
    // The leaf that a record tells, under the branches of a path.
    fn leaf(
        self,
        path: &'a Path,
        number: usize,
        scale: i32,
        potentials: &'a [i32],
        multipliers: &'a [i32],
    ) -> Leaf<'a>
        requires { (unsigned_abs scale ≤ 1000) × Small potentials.now × Small multipliers.now }
        ensures of { (task_of result.claim.task.now ≡ task_of self.entry.task.now) × (result.claim.sense ≡ self.entry.sense) × (result.claim.price.now ≡ self.entry.price.now) × (result.number ≡ number) }
        ensures lines { lines_of result ≡ lines_at (task_of self.entry.task.now) (branches_of path.now) }
        ensures held { leaf_held result ≡ leaf_of scale potentials.now multipliers.now }
    {
        Leaf {
            claim: self,
            path: path.branches(),
            number,
            scale: scale.unsigned_abs(),
            potentials,
            multipliers,
        }
    }

    // Judges a record, if it is a leaf.
    fn judge_record<T: Tariff>(
        self,
        tariff: &T,
        read: Record<'_>,
        path: &Path,
        number: usize,
    ) -> Result<(), TreeFault>
        requires { Bounded (held read) }
        ensures { result ≡ record_answer (T.le tariff.now) (T.unit tariff.now) (task_of self.entry.task.now) self.entry.sense self.entry.price.now (lines_at (task_of self.entry.task.now) (branches_of path.now)) (held read.entry) number }
    {
        match read {
            Record::Leaf {
                scale,
                potentials,
                multipliers,
            } => self
                .leaf(path, number, scale, potentials, multipliers)
                .judge(tariff),
            Record::Split { .. } => Ok(()),
        }
    }
}

// The first question that fails, leaf by leaf in list order.
pub(crate) fn judge_list<T: Tariff>(
    tariff: &T,
    claim: Claim<'_>,
    shape: Shape,
    list: &[i32],
) -> Result<(), TreeFault>
    requires { (shape.splits ≡ 12) × ((t : Tree) × Spells shape.nodes shape.rows list.now t × All Bounded (records t)) }
    ensures { (t : Tree) → Spells shape.nodes shape.rows list.now t → All Bounded (records t) → result ≡ tree_answer (T.le tariff.now) (T.unit tariff.now) (task_of claim.entry.task.now) claim.entry.sense claim.entry.price.now t }
{
    let mut records = Records::new(list, shape);
    while let Some((record, rest)) = records.front() {
        claim.judge_record(tariff, record, records.path(), records.leaves())?;
        records.pass(record, rest);
    }
    Ok(())
}
