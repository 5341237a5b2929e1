// The record of a case.
ghost use Rattle.std.specs.Prelude.{◌≡◌, ◌≤◌, true, length};
ghost use Rattle.judge.specs.Cases.{Contents, contents, IsCase};
ghost use Rattle.judge.specs.Stages.{ends_held};

use crate::counts::Turns;
use crate::stages::Stage;
use std::marker::Model;
use task::{Edge, NODES, Row};

/// One task: its edges, its rows and its stage. The lists have room for all that they may hold,
/// so no call on a case wants memory.
#[derive(Drop)]
pub struct Case {
    pub(crate) stage: Stage,
    pub(crate) edges: Vec<Edge>,
    pub(crate) rows: Vec<Row>,
    // of a claim that stands: the last exit of every node, and the turns left of every edge; beside the stage, which each call copies
    pub(crate) exits: [usize; NODES],
    pub(crate) left: Turns,
}

/// In a contract a case is its contents.
impl Model for Case {
    ghost Value = { Contents };

    ghost view = { λ case. contents case.stage case.edges case.rows case.exits case.left.items };

    ghost invariant = { λ case. IsCase case.stage case.edges case.rows case.exits case.left.items };
}

impl Case {
    /// The theorem that a case keeps to its limits, and that past the draft its ends are those of its graph.
    pub fn keeps_limits(&self)
        ensures few_edges { length self.now.edges ≤ 64 }
        ensures few_rows { length self.now.rows ≤ 24 }
        ensures ends_hold { ends_held self.now.stage self.now.edges ≡ true }
    {
        // the facts of a case are known once a field of it is touched
        let _ = &self.stage;
    }
}
