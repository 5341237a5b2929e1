// A leaf under the splits above it, and a column of the table of its rows.
ghost use Rattle.std.specs.Prelude.{◌≤◌, length};
ghost use Rattle.certificate.specs.Ready.{Small};

use crate::branches::Branch;
use crate::claims::Claim;

// A column of the table of a leaf's rows: the coefficients of one edge, or the limits.
#[derive(Clone, Copy)]
pub(crate) enum Column {
    Edge { number: usize, block: u8 },
    Limit,
}

// A leaf under the branches of a path: its number in list order, its scale, and the parts of the list with two numbers for each node and each row.
// A tariff is lent to each question, and no part of a leaf: it orders prices, whatever the leaf.
#[derive(Clone, Copy)]
pub(crate) struct Leaf<'a> {
    pub(crate) claim: Claim<'a>,
    pub(crate) path: &'a [Branch],
    pub(crate) number: usize,
    pub(crate) scale: u32,
    pub(crate) potentials: &'a [i32],
    pub(crate) multipliers: &'a [i32],
    ghost few: { length path.now ≤ 12 },
    ghost scale_fits: { scale ≤ 1000 },
    ghost potentials_small: { Small potentials.now },
    ghost multipliers_small: { Small multipliers.now },
}
