// Is a list exactly one tree?
ghost use Rattle.std.specs.Prelude.{◌≡◌, suc, ◌+◌, ◌≤◌, length, MatchOption};
ghost use Rattle.certificate.specs.Held.{ends, list_held, rest_of};
ghost use Rattle.certificate.specs.Reading.{read_tree};
ghost use Rattle.task.specs.Sides.{node_count};

use crate::branches::MAX_SPLITS;
use crate::claims::Claim;
use crate::reading::{Record, read_record};
use task::nodes;

// A leaf of the tree has two numbers for each node and each row, and stands under no more splits; each of these adds a row.
#[derive(Clone, Copy)]
pub(crate) struct Shape {
    pub(crate) nodes: usize,
    pub(crate) rows: usize,
    pub(crate) splits: usize,
    ghost few_nodes: { nodes ≤ 32 },
    ghost few_rows: { rows + splits ≤ 36 },
}

impl Claim<'_> {
    // The shape of a tree that may prove the claim.
    pub(crate) fn shape(self) -> Shape
        ensures nodes { result.nodes ≡ node_count self.entry.task.now.edges.now }
        ensures rows { result.rows ≡ length self.entry.task.now.rows.now }
        ensures splits { result.splits ≡ 12 }
    {
        Shape {
            nodes: nodes(self.task.edges),
            rows: self.task.rows.len(),
            splits: MAX_SPLITS,
        }
    }
}

impl Shape {
    // The shape of what stands under so many splits.
    pub(crate) fn under(self, splits: usize) -> Shape
        requires { splits ≤ self.splits }
        ensures { (result.nodes ≡ self.nodes) × (result.rows ≡ self.rows + splits) }
    {
        Shape {
            nodes: self.nodes,
            rows: self.rows + splits,
            splits: self.splits - splits,
        }
    }

    // The shape of the two trees of a split, where one may stand.
    pub(crate) fn under_split(self) -> Option<Shape>
        ensures { MatchOption result (self.splits ≡ 0) (λ s. (s.nodes ≡ self.nodes) × (s.rows ≡ self.rows + 1) × (self.splits ≡ suc s.splits)) }
    {
        let splits = self.splits.checked_sub(1)?;
        Some(Shape {
            nodes: self.nodes,
            rows: self.rows + 1,
            splits,
        })
    }
}

// What is left of the list behind one tree.
fn after_tree<'a>(list: &'a [i32], shape: Shape) -> Option<&'a [i32]>
    ensures { list_held result ≡ rest_of (read_tree shape.splits shape.nodes shape.rows list.now) }
{
    let (record, rest) = read_record(list, shape)?;
    match record {
        Record::Leaf { .. } => Some(rest),
        Record::Split { .. } => {
            let under = shape.under_split()?;
            let second = after_tree(rest, under)?;
            after_tree(second, under)
        }
    }
}

// Whether the list is exactly one tree.
pub(crate) fn is_one_tree(list: &[i32], shape: Shape) -> bool
    ensures { result ≡ ends (rest_of (read_tree shape.splits shape.nodes shape.rows list.now)) }
{
    after_tree(list, shape).is_some_and(|rest| rest.is_empty())
}
