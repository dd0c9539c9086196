//! How the table is kept.
ghost use Rattle.std.specs.Prelude.{◌≡◌, ℕ, ◌<◌, ◌≤◌, true, false, [], length, slice_index_or};

use fixed::lists::FixedList;
use source::growing::{MOST_EQUATIONS, MOST_UNKNOWNS};

/// A table with a row for each equation and a flag in it for each unknown.
#[derive(Drop)]
pub struct Table {
    pub(crate) rows: FixedList<[bool; MOST_UNKNOWNS], MOST_EQUATIONS>,
    pub(crate) unknowns: usize,
    ghost few: { (length rows ≤ 112) × (unknowns ≤ 128) },
    ghost fits: { (i k : ℕ) → i < length rows → slice_index_or (slice_index_or rows i []) k false ≡ true → k < unknowns },
}
