// The branches on the path from the root to a leaf: one for each split above it.
ghost use Rattle.std.specs.Prelude.{◌≤◌};
ghost use Rattle.arrayvec.specs.ArrayVec.{array_vec_len};

use arrayvec::ArrayVec;

// No leaf stands under more splits than this.
pub(crate) const MAX_SPLITS: usize = 12;

// The most turns of its edge in the first tree of a split.
#[derive(Clone, Copy)]
pub(crate) struct Most {
    pub(crate) count: u32,
    ghost few: { count ≤ 1048575 },
}

// The row that a branch adds: at most so many turns of an edge in the first tree of a split, more of them in the second.
#[derive(Clone, Copy)]
pub(crate) enum Branch {
    AtMost { edge: usize, most: Most },
    MoreThan { edge: usize, most: Most },
}

// What stands in the unused places of a path table.
impl Default for Branch {
    fn default() -> Branch {
        Branch::AtMost {
            edge: 0,
            most: Most { count: 0 },
        }
    }
}

// The path table: the branches above what is read next, root first.
#[derive(Drop)]
pub(crate) struct Path {
    pub(crate) branches: ArrayVec<Branch, MAX_SPLITS>,
    ghost deep: { array_vec_len branches ≤ 12 },
}
