//! Tests that are many, and a keeper as a buyer might write one.
#![tactic(auto)]

#[cfg(test)]
mod figures;
#[cfg(test)]
mod keeper_report;
mod lone;
#[cfg(test)]
mod texts;

pub use lone::Lone;
