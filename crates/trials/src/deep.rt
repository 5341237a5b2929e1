// The largest tree that a claim may have.
use std::alloc::{AllocError, Global};

const SPLITS: u32 = 12;

const LEAVES: u32 = 4_096;

// A leaf of scale 1 for the task of one edge that costs (20, 1), with no use of the path rows, behind so many splits of edge 0 at m = 0.
fn push_leaf(tree: &mut Vec<i32>, splits: u32) -> Result<(), AllocError> {
    for _ in 0..splits {
        tree.extend_from_slice(&[1, 0, 0])?;
    }
    tree.extend_from_slice(&[0, 1, 20, 1, 0, 0])?;
    tree.extend_from_slice(&[0; 24])
}

// Each leaf stands behind the splits that it is the first leaf of.
pub(crate) fn deep_tree(heap: Global) -> Result<Vec<i32>, AllocError> {
    let mut tree = Vec::new(heap);
    for leaf in 0..LEAVES {
        push_leaf(&mut tree, leaf.trailing_zeros().min(SPLITS))?;
    }
    Ok(tree)
}
