// The calls that hand out the run of a claim, take a claim back and tell the state of a case.
ghost use Rattle.std.specs.Prelude.{◌≡◌};
ghost use Rattle.judge.specs.Handing.{step_answer, step_kept, told_answer, withdraw_answer, withdraw_kept};
ghost use Rattle.judge.specs.Reports.{shown};

use crate::case::Case;
use crate::counts::{head_of, total, use_turn};
use crate::refusals::Refusal;
use crate::reports::Report;
use crate::stages::Stage;
use task::Flow;
use walk::next_edge;

impl Case {
    /// Hands out the next edge of the run of the claim that stands; none once all of it is handed out.
    pub fn step(&mut self) -> Result<Option<usize>, Refusal>
        ensures answer { result ≡ step_answer self.old }
        ensures kept { self.new ≡ step_kept result self.old }
    {
        match &mut self.stage {
            Stage::Standing { end, claim, .. } => {
                let left = Flow {
                    edges: &self.edges,
                    turns: self.left.as_slice(),
                };
                let Some(edge) = next_edge(left, &self.exits, claim.at, *end) else {
                    return Ok(None);
                };
                use_turn(&mut self.left, edge);
                claim.at = head_of(&self.edges, edge);
                Ok(Some(edge))
            }
            _ => Err(Refusal::NothingStands),
        }
    }

    /// Turns a case with a claim that stands, or a void one, back to sealed.
    pub fn withdraw(&mut self) -> Result<(), Refusal>
        ensures answer { result ≡ withdraw_answer self.old }
        ensures kept { self.new ≡ withdraw_kept self.old }
    {
        let stage = self.stage;
        match stage {
            Stage::Standing { start, end, .. } | Stage::Void { start, end } => {
                self.stage = Stage::Sealed { start, end };
                Ok(())
            }
            _ => Err(Refusal::NothingToWithdraw),
        }
    }

    /// The stage of the case; where a claim stands also its price, the steps handed out since and the turns left.
    pub fn told(&self) -> Report
        ensures { shown result ≡ told_answer self.now }
    {
        match self.stage {
            Stage::Draft => Report::Draft,
            Stage::Sealed { .. } => Report::Sealed,
            Stage::Standing { claim, .. } => {
                let left = total(self.left.as_slice());
                Report::Standing {
                    sense: claim.sense,
                    proof: claim.proof,
                    price: claim.price,
                    steps: claim.all.saturating_sub(left),
                    left,
                }
            }
            Stage::Void { .. } => Report::Void,
        }
    }
}
