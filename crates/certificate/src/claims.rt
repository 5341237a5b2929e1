// What a tree is to prove.
ghost use Rattle.std.specs.Prelude.{◌^◌, ◌≤◌, length};
ghost use Rattle.price.specs.Ranges.{Both};

use price::{Price, Sense};
use task::Task;

// A task that a case can have, and a price that no run of it is to be dearer than, where the price of an edge is the one that counts in this sense.
#[derive(Clone, Copy)]
pub(crate) struct Claim<'a> {
    pub(crate) task: &'a Task<'a>,
    pub(crate) sense: Sense,
    pub(crate) price: &'a Price,
    ghost few: { length task.now.rows.now ≤ 24 },
    ghost small: { Both (2 ^ 42) price.now },
}
