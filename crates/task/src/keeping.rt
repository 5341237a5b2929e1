// Whether turns keep every row.
ghost use Rattle.std.specs.Prelude.{◌≡◌, ◌^◌, ◌<◌, length, pos, ◌*ℤ◌};
ghost use Rattle.price.specs.Ranges.{Within};
ghost use Rattle.task.specs.Lowest.{first};
ghost use Rattle.task.specs.Rows.{row_sum};
ghost use Rattle.task.specs.TurnsAnswer.{broken, kept, meets};

use crate::rows::{Relation, Row};
use crate::tasks::Flow;

// A coefficient times turns; the bound of a product is what its contract is for.
fn weighed(coefficient: i32, turns: u32) -> i128
    ensures value { result ≡ coefficient *ℤ pos turns }
    ensures small { Within (2 ^ 63) result }
{
    i128::from(i64::from(coefficient) * i64::from(turns))
}

impl Relation {
    // Whether the sum is so related to k.
    fn is_met(self, sum: i128, k: i128) -> bool
        ensures { result ≡ meets self sum k }
    {
        match self {
            Relation::Below => sum < k,
            Relation::AtMost => sum <= k,
            Relation::Equal => sum == k,
        }
    }
}

impl Flow<'_> {
    // The row's sum, edge by edge: the coefficient of the edge's block times its turns. A `for`, since each product's range bounds the sum.
    fn row_sum(self, row: &Row) -> i128
        ensures { result ≡ row_sum self.entry.edges.now row.now self.entry.turns.now }
    {
        let mut sum = 0;
        for (x, edge) in self.edges.iter().enumerate() {
            sum += weighed(row.coefficient(edge.block), self.turns_of(x));
        }
        sum
    }

    fn keeps(self, row: &Row) -> bool
        ensures { result ≡ kept self.entry.edges.now self.entry.turns.now row.now }
    {
        row.relation()
            .is_met(self.row_sum(row), i128::from(row.k()))
    }

    // Whether the turns do not keep row `i`.
    fn breaks(self, rows: &[Row], i: usize) -> bool
        requires { i < length rows.now }
        ensures { result ≡ broken self.entry.edges.now rows.now self.entry.turns.now i }
    {
        !self.keeps(&rows[i])
    }

    // The lowest row that the turns do not keep.
    pub(crate) fn first_broken(self, rows: &[Row]) -> Option<usize>
        ensures { result ≡ first (broken self.entry.edges.now rows.now self.entry.turns.now) (length rows.now) }
    {
        (0..rows.len()).find(|i| self.breaks(rows, *i))
    }
}
