//! The dense source: a row of bits for each equation.
#![tactic(auto)]

pub mod growing;
pub mod rows;
