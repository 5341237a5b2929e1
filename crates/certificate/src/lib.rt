// Judges a backing tree: whether it proves that no run of a task is dearer than claimed, or that there is none.
#![tactic(auto)]

mod allowances;
mod branches;
mod claims;
mod faults;
mod judging;
mod leaf;
mod paths;
mod prices;
mod proving;
mod questions;
mod ranges;
mod reading;
mod records;
mod shapes;
mod sums;
mod walking;

pub use faults::TreeFault;
pub use proving::{prove_price, prove_void};
