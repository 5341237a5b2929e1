// The records of a tree's list, read one after another with the branches above each.
ghost use Rattle.std.specs.Prelude.{◌≡◌, ◌^◌, ◌<◌};

use crate::branches::Path;
use crate::reading::{Record, read_record};
use crate::shapes::Shape;

// What is left of a list of `whole` numbers, read record by record. The ranges and the leaves are asked in this walk.
// Above the record in front are the branches of the path table, and before it stand so many leaves.
#[derive(Drop)]
pub(crate) struct Records<'a> {
    shape: Shape,
    path: Path,
    leaves: usize,
    whole: usize,
    rest: &'a [i32],
    ghost full: { shape.splits ≡ 12 },
    ghost short: { whole < 2 ^ 63 },
}

impl<'a> Records<'a> {
    ghost use Rattle.std.specs.Prelude.{◌≡◌, ◌+◌, ◌<◌, [], ◌∷◌, List, length};
    ghost use Rattle.certificate.specs.Ahead.{Ahead, after, first_and_rest, leaves_after, numbers, place_of, records, written};
    ghost use Rattle.certificate.specs.Held.{held, record_held};
    ghost use Rattle.certificate.specs.Ready.{Bounded};
    ghost use Rattle.certificate.specs.Splits.{branches_of};
    ghost use Rattle.certificate.specs.Trees.{Spells, Tree, TreeRecord};

    pub(crate) fn new(list: &'a [i32], shape: Shape) -> Records<'a>
        requires { shape.splits ≡ 12 }
        ensures ahead { (t : Tree) → Spells shape.nodes shape.rows list.now t → Ahead result (records t) }
        ensures first { (branches_of result.path ≡ []) × (result.leaves ≡ 0) × (place_of result ≡ 0) }
    {
        Records {
            shape,
            path: Path::new(),
            leaves: 0,
            whole: list.len(),
            rest: list,
        }
    }

    // The record in front, and the list behind it.
    pub(crate) fn front(&self) -> Option<(Record<'a>, &'a [i32])>
        ensures { (rs : List TreeRecord) → Ahead self.now rs → record_held result ≡ first_and_rest rs }
    {
        read_record(self.rest, self.shape.under(self.path.depth()))
    }

    // The place in the whole list of the record in front.
    pub(crate) fn place(&self) -> usize
        requires { (rs : List TreeRecord) × Ahead self.now rs }
        ensures { result ≡ place_of self.now }
    {
        self.whole - self.rest.len()
    }

    // The branches above the record in front.
    pub(crate) fn path(&self) -> &Path
        ensures { result.now ≡ self.now.path }
    {
        &self.path
    }

    // How many leaves stand before the record in front.
    pub(crate) fn leaves(&self) -> usize
        ensures { result ≡ self.now.leaves }
    {
        self.leaves
    }

    // Goes past the record in front, and so the path table: from a split into its first tree, from a leaf onward.
    pub(crate) fn pass(&mut self, read: Record<'a>, rest: &'a [i32])
        requires { (rs : List TreeRecord) × Ahead self.old (held read ∷ rs) × (written rs ≡ rest.now) × Bounded (held read) }
        ensures ahead { (rs : List TreeRecord) → Ahead self.old (held read.entry ∷ rs) → written rs ≡ rest.entry.now → Ahead self.new rs × (place_of self.new ≡ place_of self.old + length (numbers (held read.entry))) }
        ensures path { branches_of self.new.path ≡ after (held read.entry) (branches_of self.old.path) }
        ensures leaves { self.new.leaves ≡ leaves_after (held read.entry) self.old.leaves }
        ensures shorter { length self.new.rest.now < length self.old.rest.now }
    {
        match read {
            Record::Split { edge, most } => self.path.push(edge, most),
            Record::Leaf { .. } => {
                self.path.onward();
                self.leaves += 1;
            }
        }
        self.rest = rest;
    }
}
