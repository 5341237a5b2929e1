// The walk that hands out the run of a claim, edge by edge.
#![tactic(auto)]

mod exits;
mod laws;
mod stepping;

pub use exits::last_exits;
pub use laws::{fewest_stands, walk_stands};
pub use stepping::next_edge;
