//! Writes the numbers of a set.
ghost use Rattle.std.specs.Prelude.{◌≡◌, ◌+◌, ◌≤◌, ◌++◌, length};
ghost use Rattle.sets.specs.Counting.{how_many};
ghost use Rattle.sets.specs.Members.{member_of};
ghost use Rattle.sparse.specs.Cells.{numbers_to};

use fixed::lists::FixedList;
use sets::numbers::UnknownSet;

/// Appends the numbers of a set, rising.
pub(crate) fn fill<const N: usize>(cells: &mut FixedList<u8, N>, unknowns: UnknownSet)
    requires { length cells.old + how_many 128 (member_of unknowns.bits) ≤ N }
    ensures { cells.new ≡ cells.old ++ numbers_to 128 (member_of unknowns.bits) }
{
    for unknown in 1..129u8 {
        if unknowns.holds(unknown.into()) {
            cells.push(unknown);
        }
    }
}
