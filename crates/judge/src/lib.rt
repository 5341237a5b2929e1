// A task on trial: the case that holds it, and the calls on the case.
#![tactic(auto)]

mod case;
mod claiming;
mod counts;
mod drafting;
mod faults;
mod handing;
mod refusals;
mod reports;
mod stages;

pub use case::Case;
pub use refusals::Refusal;
pub use reports::Report;
pub use stages::Proof;
