//! A choice of mates, one for each meter at each level, as a table.
#![tactic(auto)]

mod mates;

pub use mates::Mates;
