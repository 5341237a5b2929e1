// The record of a row.
ghost use Rattle.std.specs.Prelude.{◌≡◌, true, length};
ghost use Rattle.price.specs.Ranges.{Within};
ghost use Rattle.task.specs.Coefficients.{all_small};
ghost use Rattle.task.specs.Rows.{coefficient};

use std::marker::Model;

/// As many coefficients as a row has, one for each block: in an array, so that a row takes no memory of its own.
pub const BLOCKS: usize = 64;

/// How a row's sum is compared with its number k.
#[derive(Clone, Copy, Debug, PartialEq, Eq)]
pub enum Relation {
    Below,
    AtMost,
    Equal,
}

/// A relation, a number k from -1,048,576 to 1,048,576 and a coefficient from -1,000 to 1,000 for each block.
#[derive(Clone, Copy, Debug, PartialEq, Eq)]
pub struct Row {
    pub(crate) relation: Relation,
    pub(crate) k: i32,
    pub(crate) coefficients: [i32; BLOCKS],
}

impl Model for Row {
    ghost use Rattle.task.specs.Rows.{IsRow, Row};

    ghost Value = { Row };

    ghost view = { λ r. record { relation = r.relation; k = r.k; coefficients = r.coefficients } };

    ghost invariant = { λ r. IsRow r.k r.coefficients };

    ghost inverse = { λ v. record { relation = v.relation; k = v.k; coefficients = v.coefficients } };
}

impl Row {
    /// The theorem that a row keeps to its ranges.
    pub fn keeps_ranges(&self)
        ensures k_fits { Within 1048576 self.now.k }
        ensures every_block { length self.now.coefficients ≡ 64 }
        ensures all_fit { all_small self.now.coefficients ≡ true }
    {
        // the facts of a row are known once a field of it is touched
        let _ = &self.coefficients;
    }

    pub fn relation(&self) -> Relation
        ensures { result ≡ self.now.relation }
    {
        self.relation
    }

    pub fn k(&self) -> i32
        ensures value { result ≡ self.now.k }
        ensures small { Within 1048576 result }
    {
        self.k
    }

    /// The coefficient of a block, 0 past the last one.
    pub fn coefficient(&self, block: u8) -> i32
        ensures value { result ≡ coefficient self.now block }
        ensures small { Within 1000 result }
        ensures blocks { length self.now.coefficients ≡ 64 }
    {
        self.coefficients
            .get(usize::from(block))
            .copied()
            .unwrap_or(0)
    }
}
