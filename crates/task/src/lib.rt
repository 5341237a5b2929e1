// The graph of a task, its rows and its two ends.
#![tactic(auto)]

mod edges;
mod faults;
mod keeping;
mod laws;
mod new_rows;
mod numbers;
mod pricing;
mod rows;
mod sealing;
mod spreading;
mod tasks;
mod turns;

pub use edges::{Cost, Edge, NewEdge, repeats};
pub use faults::{EdgeFault, GraphFault, RowFault, TurnsFault};
pub use laws::sums_go_by_places;
pub use numbers::{NODES, Node};
pub use rows::{BLOCKS, Relation, Row};
pub use sealing::{ends, nodes};
pub use tasks::{Flow, MAX_EDGES, MAX_ROWS, Task};
pub use turns::MAX_TURNS;
