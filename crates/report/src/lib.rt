//! Decimal numbers, and the report line that is made without a model.
#![tactic(auto)]

pub mod areas;
pub mod decimals;
pub mod refusals;
