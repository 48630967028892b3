//! Keepers of open proposals: what a board asks of one, and two of them, each over a table that is lent to it.
#![tactic(auto)]

mod ordering;
mod patience;
mod ruled;
mod rules;
mod stores;
mod tables;
mod traits;

pub use ordering::Ordered;
pub use patience::Patient;
pub use tables::MOST_OPEN;
pub use traits::{Keeper, Reader};
