// The calls that judge a claim. What a call does depends on the stage: each matches on it.
ghost use Rattle.std.specs.Prelude.{◌≡◌, ◌^◌, ◌≤◌, length, IfOk, OnOk};
ghost use Rattle.certificate.specs.Tasks.{task_of};
ghost use Rattle.judge.specs.Claiming.{Accepted, Voided, claim_answer, claim_kept, claim_on, task_between, void_answer, void_kept, void_on};
ghost use Rattle.judge.specs.Counts.{Few};
ghost use Rattle.price.specs.Ranges.{Both};
ghost use Rattle.price.specs.declared.senses.Sense.TheVariants.{Longest};

use crate::case::Case;
use crate::counts::{refill, total};
use crate::refusals::Refusal;
use crate::stages::{Proof, Stage, Standing};
use certificate::{prove_price, prove_void};
use price::{Price, Sense, Tariff};
use task::{Flow, Node, Task};
use walk::last_exits;

// The turns are sound, and the tree proves their price.
fn judge_claim<T: Tariff>(
    tariff: &T,
    task: &Task<'_>,
    sense: Sense,
    turns: &[u32],
    tree: &[i32],
) -> Result<Price, Refusal>
    requires { length task.now.edges.now ≤ 64 }
    ensures { result ≡ claim_on sense (T.le tariff.now) (T.unit tariff.now) (task_of task.now) turns.now tree.now }
{
    task.check_turns(turns)?;
    let claimed = Flow {
        edges: task.edges,
        turns,
    };
    let price = claimed.price(sense)?;
    prove_price(tariff, task, sense, price, tree)?;
    Ok(price)
}

impl Case {
    // What the case lends to be judged.
    fn task(&self, start: Node, end: Node) -> Task<'_>
        ensures value { task_of result ≡ task_between self.now.edges self.now.rows start end }
        ensures few { length result.edges.now ≤ 64 }
    {
        Task {
            edges: &self.edges,
            rows: &self.rows,
            start,
            end,
        }
    }

    // The questions of a claim on a sealed case.
    fn judge_turns<T: Tariff>(
        &self,
        tariff: &T,
        start: Node,
        end: Node,
        sense: Sense,
        turns: &[u32],
        tree: &[i32],
    ) -> Result<Price, Refusal>
        ensures answer { result ≡ claim_on sense (T.le tariff.now) (T.unit tariff.now) (task_between self.now.edges self.now.rows start end) turns.now tree.now }
        ensures few { OnOk result (Few turns.now) }
    {
        judge_claim(tariff, &self.task(start, end), sense, turns, tree)
    }

    // The questions of a void claim on a sealed case.
    fn judge_void<T: Tariff>(
        &self,
        tariff: &T,
        start: Node,
        end: Node,
        tree: &[i32],
    ) -> Result<(), Refusal>
        ensures { result ≡ void_on (T.le tariff.now) (T.unit tariff.now) (task_between self.now.edges self.now.rows start end) tree.now }
    {
        prove_void(tariff, &self.task(start, end), tree)?;
        Ok(())
    }

    // Judges a claim in one sense, under a tariff that finds a price no dearer than another exactly when it is no better in that sense.
    fn claim_in<T: Tariff>(
        &mut self,
        sense: Sense,
        tariff: &T,
        turns: &[u32],
        tree: &[i32],
    ) -> Result<Price, Refusal>
        ensures answer { result ≡ claim_answer sense (T.le tariff.now) (T.unit tariff.now) self.old turns.now tree.now }
        ensures kept { self.new ≡ claim_kept sense result self.old turns.now }
        ensures accepted { IfOk result (λ p. Accepted sense (T.le tariff.now) self.old.edges self.old.rows turns.now p) }
        ensures small { IfOk result (λ p. Both (2 ^ 42) p) }
    {
        let stage = self.stage;
        match stage {
            Stage::Sealed { start, end } => {
                let price = self.judge_turns(tariff, start, end, sense, turns, tree)?;
                let claimed = Flow {
                    edges: &self.edges,
                    turns,
                };
                self.exits = last_exits(claimed, end);
                refill(&mut self.left, turns);
                let claim = Standing {
                    sense,
                    proof: Proof::Certified,
                    price,
                    all: total(turns),
                    at: start,
                };
                self.stage = Stage::Standing { start, end, claim };
                Ok(price)
            }
            _ => Err(Refusal::NotSealed),
        }
    }

    /// Judges a claim: these turns, backed by this tree. Answers their price, which is then certified:
    /// some run that keeps every row has these turns and this price, and none that keeps every row is dearer.
    pub fn claim<T: Tariff>(
        &mut self,
        tariff: &T,
        turns: &[u32],
        tree: &[i32],
    ) -> Result<Price, Refusal>
        ensures answer { result ≡ claim_answer Longest (T.le tariff.now) (T.unit tariff.now) self.old turns.now tree.now }
        ensures kept { self.new ≡ claim_kept Longest result self.old turns.now }
        ensures accepted { IfOk result (λ p. Accepted Longest (T.le tariff.now) self.old.edges self.old.rows turns.now p) }
        ensures small { IfOk result (λ p. Both (2 ^ 42) p) }
    {
        self.claim_in(Sense::Longest, tariff, turns, tree)
    }

    /// Judges the claim that no run keeps every row, backed by this tree.
    pub fn void<T: Tariff>(&mut self, tariff: &T, tree: &[i32]) -> Result<(), Refusal>
        ensures answer { result ≡ void_answer (T.le tariff.now) (T.unit tariff.now) self.old tree.now }
        ensures kept { self.new ≡ void_kept result self.old }
        ensures accepted { OnOk result (Voided self.old.edges self.old.rows) }
    {
        let stage = self.stage;
        match stage {
            Stage::Sealed { start, end } => {
                self.judge_void(tariff, start, end, tree)?;
                self.stage = Stage::Void { start, end };
                Ok(())
            }
            _ => Err(Refusal::NotSealed),
        }
    }
}
