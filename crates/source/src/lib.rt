//! Sources: which equations hold which unknowns. What every source answers, what a growing one takes up, and two layers over any source.
#![tactic(auto)]

pub mod changes;
pub mod faults;
pub mod growing;
pub mod questions;
