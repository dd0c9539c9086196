//! A text checked line by line, and an account of its lines. A first form of the report.
#![tactic(auto)]

pub mod accounts;
pub mod checking;
