// How the path table goes from record to record.
ghost use Rattle.std.specs.Prelude.{◌≡◌, ◌<◌, ◌≤◌, [], ◌∷◌, ◌++◌, length, unsigned_abs};
ghost use Rattle.certificate.specs.Splits.{branches_of, first_of, onward};

use crate::branches::{Branch, Most, Path};
use arrayvec::ArrayVec;

impl Path {
    pub(crate) fn new() -> Path
        ensures { branches_of result ≡ [] }
    {
        Path {
            branches: ArrayVec::new(),
        }
    }

    pub(crate) fn branches(&self) -> &[Branch]
        ensures value { result.now ≡ self.now.branches.items }
        ensures few { length result.now ≤ 12 }
    {
        self.branches.as_slice()
    }

    // How many splits stand above what is read next.
    pub(crate) fn depth(&self) -> usize
        ensures { result ≡ length (branches_of self.now) }
    {
        self.branches.len()
    }

    // Goes into the first tree of a split.
    pub(crate) fn push(&mut self, edge: i32, most: i32)
        requires room { length (branches_of self.old) < 12 }
        requires few { unsigned_abs most ≤ 1048575 }
        ensures { branches_of self.new ≡ branches_of self.old ++ first_of (unsigned_abs edge) (unsigned_abs most) ∷ [] }
    {
        // a cast, since Rust has no `From<u32>` for `usize`
        let edge = edge.unsigned_abs() as usize;
        let most = Most {
            count: most.unsigned_abs(),
        };
        self.branches.push(Branch::AtMost { edge, most });
    }

    // Behind a leaf, the last split in its first tree goes on to its second; those below it are done.
    pub(crate) fn onward(&mut self)
        ensures { branches_of self.new ≡ onward (branches_of self.old) }
    {
        while let Some(last) = self.branches.pop() {
            if let Branch::AtMost { edge, most } = last {
                self.branches.push(Branch::MoreThan { edge, most });
                return;
            }
        }
    }
}
