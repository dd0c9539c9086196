//! Two layers over any source: sensors put behind its equations, and the source read the other way.
#![tactic(auto)]

pub mod sensing;
pub mod sensors;
pub mod transposed;
