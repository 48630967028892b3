//! The terms of a pairing board: a group's size, a proposal, a pair, a saving's level, and why a call refuses.
#![tactic(auto)]

mod levels;
mod pairing;
mod pairs;
mod proposals;
mod proposing;
mod refusals;
mod sizes;
mod sizing;

pub use levels::{LEVELS, level};
pub use pairs::Pair;
pub use proposals::Proposal;
pub use refusals::{Layer, Reason, Refusal};
pub use sizes::{GroupSize, METERS};
