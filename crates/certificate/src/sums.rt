// What the rows of a leaf charge: an entry of each times its multiplier, added up.
// Entries are within 2^20 + 1, multipliers within 2^26: each clause says so of its own parts, since a product's bound is its contract.
ghost use Rattle.std.specs.Prelude.{◌≡◌, ℕ, ◌+◌, ◌*◌, ◌^◌, ◌<◌, length, pos, ◌+ℤ◌, ◌*ℤ◌, slice_index_or};
ghost use Rattle.certificate.specs.Columns.{charged, entries, row_entry, branch_entry};
ghost use Rattle.certificate.specs.Held.{leaf_held};
ghost use Rattle.certificate.specs.Lines.{multiplier, pairs, potential};
ghost use Rattle.certificate.specs.Ready.{Small};
ghost use Rattle.certificate.specs.Splits.{branch_of};
ghost use Rattle.price.specs.Pairs.{◌⊕◌, times, zero};
ghost use Rattle.price.specs.Ranges.{Both, Within};

use crate::branches::Branch;
use crate::leaf::{Column, Leaf};
use task::{Node, Relation, Row};

// The number at a place, and 0 past the end.
fn number(list: &[i32], place: usize) -> i32
    ensures { result ≡ slice_index_or list.now place (pos 0) }
{
    list.get(place).copied().unwrap_or(0)
}

// The pair of this number in a list of pairs, and (0, 0) past the end.
fn pair_at(list: &[i32], i: usize) -> (i64, i64)
    requires { i < 2 ^ 32 }
    ensures value { result ≡ slice_index_or (pairs list.now) i zero }
    ensures small { Small list.now → Both 67108864 result }
{
    let first = number(list, 2 * i);
    let second = number(list, 2 * i + 1);
    (i64::from(first), i64::from(second))
}

// The entry of a row of the task.
fn row_entry(row: &Row, column: Column) -> i64
    ensures value { result ≡ row_entry column row.now }
    ensures small { Within 1048577 result }
{
    match column {
        Column::Edge { block, .. } => i64::from(row.coefficient(block)),
        Column::Limit => match row.relation() {
            Relation::Below => i64::from(row.k()) - 1,
            Relation::AtMost | Relation::Equal => i64::from(row.k()),
        },
    }
}

impl Branch {
    // The entry of a row of the path.
    fn entry(self, column: Column) -> i64
        ensures value { result ≡ branch_entry column (branch_of self) }
        ensures small { Within 1048577 result }
    {
        match (self, column) {
            (Branch::AtMost { edge, .. }, Column::Edge { number, .. }) => i64::from(number == edge),
            (Branch::MoreThan { edge, .. }, Column::Edge { number, .. }) => -i64::from(
                number == edge,
            ),
            (Branch::AtMost { most, .. }, Column::Limit) => i64::from(most.count),
            (Branch::MoreThan { most, .. }, Column::Limit) => -1 - i64::from(most.count),
        }
    }
}

// An entry times a part of its multiplier.
fn product(entry: i64, part: i64) -> i64
    requires { (Within 1048577 entry) × (Within 67108864 part) }
    ensures value { result ≡ entry *ℤ part }
    ensures small { Within 70368811286528 result }
{
    entry * part
}

// A part of a sum, and an entry times a part of its multiplier more.
fn part_more(sum: i64, entry: i64, part: i64) -> i64
    requires { (Within (70368811286528 * 35) sum) × (Within 1048577 entry) × (Within 67108864 part) }
    ensures value { result ≡ sum +ℤ entry *ℤ part }
    ensures small { (n : ℕ) → Within (70368811286528 * n) sum → Within (70368811286528 * (n + 1)) result }
{
    sum + product(entry, part)
}

// A sum, and an entry times its multiplier more.
fn charge_more(sum: (i64, i64), entry: i64, multiplier: (i64, i64)) -> (i64, i64)
    requires { (Both (70368811286528 * 35) sum) × (Within 1048577 entry) × (Both 67108864 multiplier) }
    ensures value { result ≡ sum ⊕ times entry multiplier }
    ensures small { (n : ℕ) → Both (70368811286528 * n) sum → Both (70368811286528 * (n + 1)) result }
{
    let cycles = part_more(sum.0, entry, multiplier.0);
    let reads = part_more(sum.1, entry, multiplier.1);
    (cycles, reads)
}

impl Leaf<'_> {
    pub(crate) fn potential(&self, node: Node) -> (i64, i64)
        ensures value { result ≡ potential (leaf_held self.now) node }
        ensures small { Both 67108864 result }
    {
        pair_at(self.potentials, node.index())
    }

    pub(crate) fn multiplier(&self, row: usize) -> (i64, i64)
        requires { row < 2 ^ 32 }
        ensures value { result ≡ multiplier (leaf_held self.now) row }
        ensures small { Both 67108864 result }
    {
        pair_at(self.multipliers, row)
    }

    // How many rows there are: those of the task come first, then those of the path.
    pub(crate) fn rows(&self) -> usize
        ensures { result ≡ length self.now.claim.task.now.rows.now + length self.now.path.now }
    {
        self.claim.task.rows.len() + self.path.len()
    }

    // What the rows of the task charge in a column.
    fn charge_of_task(&self, column: Column) -> (i64, i64)
        ensures value { result ≡ charged (entries column self.now.claim.task.now.rows.now self.now.path.now) (leaf_held self.now).multipliers (length self.now.claim.task.now.rows.now) }
        ensures small { Both (70368811286528 * length self.now.claim.task.now.rows.now) result }
    {
        let mut sum: (i64, i64) = (0, 0);
        for (i, row) in self.claim.task.rows.iter().enumerate() {
            sum = charge_more(sum, row_entry(row, column), self.multiplier(i));
        }
        sum
    }

    // What all rows charge in a column: those of the path follow those of the task.
    pub(crate) fn charge(&self, column: Column) -> (i64, i64)
        ensures value { result ≡ charged (entries column self.now.claim.task.now.rows.now self.now.path.now) (leaf_held self.now).multipliers (length self.now.claim.task.now.rows.now + length self.now.path.now) }
        ensures small { Both (70368811286528 * 36) result }
    {
        let rows = self.claim.task.rows.len();
        let mut sum = self.charge_of_task(column);
        for (i, branch) in self.path.iter().enumerate() {
            sum = charge_more(sum, branch.entry(column), self.multiplier(rows + i));
        }
        sum
    }
}
