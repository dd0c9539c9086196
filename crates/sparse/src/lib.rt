//! The sparse source: a list of unknown numbers for each equation.
#![tactic(auto)]

mod filling;
pub mod growing;
pub mod lists;
