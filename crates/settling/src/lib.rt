//! The pairs that static combining keeps of a choice, settled anew with each chosen pair that comes or goes.
#![tactic(auto)]

mod kept_pairs;
mod places;
mod rows;

pub use kept_pairs::KeptPairs;
pub use rows::{Row, count_differing};
