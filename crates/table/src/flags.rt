//! A set as a row of flags.
ghost use Rattle.std.specs.Prelude.{◌≡◌, ℕ, ◌+◌, false, slice_index_or};
ghost use Rattle.sets.specs.Members.{member_of};

use sets::numbers::UnknownSet;
use source::growing::MOST_UNKNOWNS;
use std::array;

/// A flag for each number from 1 to 128: whether the set holds it.
pub(crate) fn flags(unknowns: UnknownSet) -> [bool; MOST_UNKNOWNS]
    ensures { (k : ℕ) → slice_index_or result k false ≡ member_of unknowns.bits (k + 1) }
{
    array::from_fn(|k| unknowns.holds(k + 1))
}
