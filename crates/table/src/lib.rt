//! A growing source of one's own, as an example: a table of yes and no. It keeps the bodies that the traits have for `pairs`, `next`, `capacity` and `room_for`.
#![tactic(auto)]

mod flags;
pub mod growing;
pub mod kept;
