//! Sets of equations and sets of unknowns: numbers from 1 to 128, each a bit of one number.
#![tactic(auto)]

pub mod numbers;
