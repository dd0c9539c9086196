//! How the dense source is kept.
ghost use Rattle.std.specs.Prelude.{◌≡◌, ℕ, ◌<◌, ◌≤◌, true, length, slice_index_or};
ghost use Rattle.sets.specs.Members.{member_of};
ghost use Rattle.sets.specs.Empty.{no_unknown};

use fixed::lists::FixedList;
use sets::numbers::UnknownSet;
use source::growing::MOST_EQUATIONS;

/// A growing source with a row of bits for each equation: bit `j - 1` says whether it holds unknown `j`.
#[derive(Drop)]
pub struct Dense {
    pub(crate) rows: FixedList<UnknownSet, MOST_EQUATIONS>,
    pub(crate) unknowns: usize,
    ghost few: { (length rows ≤ 112) × (unknowns ≤ 128) },
    ghost fits: { (i j : ℕ) → i < length rows → member_of (slice_index_or rows i no_unknown).bits j ≡ true → j ≤ unknowns },
}
