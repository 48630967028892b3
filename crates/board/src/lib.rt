//! The board: it holds a keeper and keeps, call by call, the pairs that static combining picks from the keeper's choice.
#![tactic(auto)]

mod boards;
mod reading;
mod replaying;

pub use boards::{Board, Serving};
pub use replaying::{Answer, Call, PLACES, replay};
