// The two calls: a tree that proves a price, and a tree that proves that there is no run.
ghost use Rattle.std.specs.Prelude.{◌≡◌, ◌^◌, ◌&&◌, pos, ◌≤ℤ◌};
ghost use Rattle.certificate.specs.TreeJudged.{TreeJudged, VoidJudged};
ghost use Rattle.certificate.specs.Soundness.{PriceProved, VoidProved};
ghost use Rattle.certificate.specs.Tasks.{task_of};
ghost use Rattle.certificate.specs.Verdicts.{list_answer, price_answer, task_answer, void_answer};
ghost use Rattle.task.specs.Coefficients.{in_range};

use crate::claims::Claim;
use crate::faults::TreeFault;
use crate::prices::price_of;
use crate::ranges::{Limits, ask_ranges};
use crate::shapes::is_one_tree;
use crate::walking::judge_list;
use price::{Price, Sense, Tariff};
use task::{MAX_EDGES, MAX_ROWS, Task};

const MAX_SCALE: i32 = 1_000;

// The largest part of a claimed price, 2^42; the smallest is its negative.
const MAX_CLAIMED: i64 = 4_398_046_511_104;

// Can a case have this price?
fn is_claimable(price: Price) -> bool
    ensures { result ≡ in_range (2 ^ 42) price.0 && in_range (2 ^ 42) price.1 }
{
    let claimable = -MAX_CLAIMED..=MAX_CLAIMED;
    claimable.contains(&price.cycles()) && claimable.contains(&price.reads())
}

// The questions of a list in order: its shape, its ranges, its leaves; D is at most `top`.
fn judge_tree<T: Tariff>(
    tariff: &T,
    claim: Claim<'_>,
    top: i32,
    list: &[i32],
) -> Result<(), TreeFault>
    requires { top ≤ℤ pos 1000 }
    ensures { result ≡ list_answer (T.le tariff.now) (T.unit tariff.now) (task_of claim.entry.task.now) claim.entry.sense claim.entry.price.now top list.now }
{
    let shape = claim.shape();
    if !is_one_tree(list, shape) {
        return Err(TreeFault::NotOneTree);
    }
    let limits = Limits {
        edges: claim.task.edges.len(),
        top,
    };
    ask_ranges(list, limits, shape)?;
    judge_list(tariff, claim, shape, list)
}

// The questions of a task before those of the list.
fn judge<T: Tariff>(
    tariff: &T,
    task: &Task<'_>,
    sense: Sense,
    price: Price,
    top: i32,
    list: &[i32],
) -> Result<(), TreeFault>
    requires { top ≤ℤ pos 1000 }
    ensures { result ≡ task_answer (T.le tariff.now) (T.unit tariff.now) (task_of task.now) sense price top list.now }
{
    if task.edges.len() > MAX_EDGES {
        return Err(TreeFault::TooManyEdges);
    }
    if task.rows.len() > MAX_ROWS {
        return Err(TreeFault::TooManyRows);
    }
    if !is_claimable(price) {
        return Err(TreeFault::PriceRange);
    }
    judge_tree(
        tariff,
        Claim {
            task,
            sense,
            price: &price,
        },
        top,
        list,
    )
}

/// Judges a tree that is to prove that no run that keeps every row is dearer than claimed; D is from 0 to 1,000.
pub fn prove_price<T: Tariff>(
    tariff: &T,
    task: &Task<'_>,
    sense: Sense,
    claimed: Price,
    tree: &[i32],
) -> Result<(), TreeFault>
    ensures answer { result ≡ price_answer (T.le tariff.now) (T.unit tariff.now) (task_of task.now) sense claimed tree.now }
    ensures means { TreeJudged (T.le tariff.now) (T.unit tariff.now) (task_of task.now) sense claimed (pos 1000) tree.now result }
    ensures sound { PriceProved (T.le tariff.now) (task_of task.now) sense claimed result }
{
    judge(tariff, task, sense, claimed, MAX_SCALE, tree)
}

/// Judges a tree that is to prove that no run keeps every row; D is 0.
pub fn prove_void<T: Tariff>(tariff: &T, task: &Task<'_>, tree: &[i32]) -> Result<(), TreeFault>
    ensures answer { result ≡ void_answer (T.le tariff.now) (T.unit tariff.now) (task_of task.now) tree.now }
    ensures means { VoidJudged (T.le tariff.now) (T.unit tariff.now) (task_of task.now) tree.now result }
    ensures sound { VoidProved (task_of task.now) result }
{
    judge(tariff, task, Sense::Longest, price_of(0, 0), 0, tree)
}
