// New rows.
ghost use Rattle.std.specs.Prelude.{◌≡◌, ◌≤◌, length};
ghost use Rattle.task.specs.Coefficients.{all_small};
ghost use Rattle.task.specs.NewRows.{padded, related, row_made};

use crate::faults::RowFault;
use crate::rows::{BLOCKS, Relation, Row};

const MAX_COEFFICIENT: i32 = 1_000;

const MAX_K: i32 = 1_048_576;

fn are_small(coefficients: &[i32]) -> bool
    ensures { result ≡ all_small coefficients.now }
{
    coefficients.iter().all(|coefficient| (-MAX_COEFFICIENT..=MAX_COEFFICIENT).contains(
        coefficient,
    ))
}

// The coefficients in front, and zeros after them.
fn with_zeros(coefficients: &[i32]) -> [i32; BLOCKS]
    requires { length coefficients.now ≤ 64 }
    ensures { result ≡ padded coefficients.now }
{
    let mut all = [0; BLOCKS];
    all[..coefficients.len()].copy_from_slice(coefficients);
    all
}

impl TryFrom<i32> for Relation {
    type Error = RowFault;

    ghost try_from_gives = { λ number made. made ≡ related number };

    fn try_from(number: i32) -> Result<Relation, RowFault> {
        match number {
            0 => Ok(Relation::Below),
            1 => Ok(Relation::AtMost),
            2 => Ok(Relation::Equal),
            _ => Err(RowFault::Relation),
        }
    }
}

impl Row {
    /// The row of these numbers: a relation (0: below k, 1: at most k, 2: equal to k), k, and the coefficients of the first blocks, 0 for all others.
    pub fn new(relation: i32, k: i32, coefficients: &[i32]) -> Result<Row, RowFault>
        ensures { result ≡ row_made relation k coefficients.now }
    {
        let relation = Relation::try_from(relation)?;
        if !(-MAX_K..=MAX_K).contains(&k)
            || coefficients.len() > BLOCKS
            || !are_small(coefficients)
        {
            return Err(RowFault::Numbers);
        }
        Ok(Row {
            relation,
            k,
            coefficients: with_zeros(coefficients),
        })
    }
}
