//! One line of a model text: its mark, its words and their names, and where a fault lies.
#![tactic(auto)]

mod lengths;
mod marked;
pub mod places;
pub mod reading;
pub mod records;
pub mod texts;
pub mod words;
