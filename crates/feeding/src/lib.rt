//! Feeds an update text to a board, or to a keeper alone: each line's call in turn, up to the first refusal.
#![tactic(auto)]

mod feeding;
mod laws;
mod ways;

pub use feeding::{Stop, TEXT_LIMIT, feed};
pub use laws::a_text_is_fed_as_it_was_written;
pub use ways::{Boarded, Straight, Way};
