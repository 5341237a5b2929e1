// The calls that draft a task and seal it. What a call does depends on the stage: each matches on it.
ghost use Rattle.std.specs.Prelude.{◌≡◌, ℕ, IfOk, Ok};
ghost use Rattle.judge.specs.Cases.{fresh};
ghost use Rattle.judge.specs.Drafting.{SealAnswers, edge_answer, edge_kept, row_answer, row_kept, seal_answer, seal_kept};
ghost use Rattle.judge.specs.Stages.{draft};
ghost use Rattle.task.specs.Sealing.{EveryEdge};

use crate::case::Case;
use crate::counts::Turns;
use crate::refusals::Refusal;
use crate::stages::Stage;
use std::alloc::{AllocError, Global};
use task::{Edge, MAX_EDGES, MAX_ROWS, NODES, NewEdge, Node, Row, ends, repeats};

impl Case {
    /// An empty draft; refused only for want of memory.
    pub fn new(heap: Global) -> Result<Case, AllocError>
        ensures { IfOk result (λ case. case ≡ fresh) }
    {
        let edges = Vec::with_capacity(heap, MAX_EDGES)?;
        let rows = Vec::with_capacity(heap, MAX_ROWS)?;
        Ok(Case {
            stage: Stage::Draft,
            edges,
            rows,
            exits: [0; NODES],
            left: Turns::new(),
        })
    }

    /// Adds an edge, and answers its number.
    pub fn edge(&mut self, new: NewEdge) -> Result<usize, Refusal>
        ensures answer { result ≡ edge_answer self.old new }
        ensures kept { self.new ≡ edge_kept result self.old new }
    {
        match self.stage {
            Stage::Draft => {}
            _ => return Err(Refusal::NotDraft),
        }
        if self.edges.len() >= MAX_EDGES {
            return Err(Refusal::EdgesFull);
        }
        let edge = Edge::new(new)?;
        if repeats(&self.edges, &edge) {
            return Err(Refusal::EdgeRepeated);
        }
        let number = self.edges.len();
        self.edges.push_reserved(edge);
        Ok(number)
    }

    /// Adds a row, and answers its number.
    pub fn row(&mut self, relation: i32, k: i32, coefficients: &[i32]) -> Result<usize, Refusal>
        ensures answer { result ≡ row_answer self.old relation k coefficients.now }
        ensures kept { self.new ≡ row_kept result self.old relation k coefficients.now }
    {
        match self.stage {
            Stage::Draft => {}
            _ => return Err(Refusal::NotDraft),
        }
        if self.rows.len() >= MAX_ROWS {
            return Err(Refusal::RowsFull);
        }
        let row = Row::new(relation, k, coefficients)?;
        let number = self.rows.len();
        self.rows.push_reserved(row);
        Ok(number)
    }

    /// Fixes the graph, and answers its start and its end. They differ, and every edge lies on a path between them.
    pub fn seal(&mut self) -> Result<(Node, Node), Refusal>
        ensures answer { result ≡ seal_answer self.old }
        ensures kept { self.new ≡ seal_kept result self.old }
        ensures means { self.old.stage ≡ draft → SealAnswers self.old.edges result }
        ensures law { (start end : ℕ) → result ≡ Ok (start, end) → EveryEdge self.old.edges start end }
    {
        match self.stage {
            Stage::Draft => {}
            _ => return Err(Refusal::NotDraft),
        }
        let (start, end) = ends(&self.edges)?;
        self.stage = Stage::Sealed { start, end };
        Ok((start, end))
    }
}
