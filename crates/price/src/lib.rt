// Prices of two parts, the tariffs that order them.
#![tactic(auto)]

mod by_cycles;
mod by_weight;
mod out_of_range;
mod prices;
mod senses;
mod tariffs;

pub use by_cycles::CyclesFirst;
pub use by_weight::Weighted;
pub use out_of_range::OutOfRange;
pub use prices::Price;
pub use senses::Sense;
pub use tariffs::{Tariff, laws_suffice};
