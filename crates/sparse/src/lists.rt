//! How the sparse source is kept.
ghost use Rattle.std.specs.Prelude.{◌≡◌, ℕ, ◌+◌, ◌<◌, ◌≤◌, true, length};
ghost use Rattle.sparse.specs.Cells.{stands_in, list_start, list_at, ListsOrdered, NumbersInOrder};

use fixed::lists::FixedList;
use source::growing::MOST_EQUATIONS;

/// A growing source with a list of unknown numbers for each equation. The lists stand one behind the other in `cells`, each rising;
/// that of equation `i` from place `starts[i - 1]` on and up to the start of the next list, or to the end of the cells.
#[derive(Drop)]
pub struct Sparse {
    // Kept: the lists share one store of cells, since 1,024 of them are the stated budget of the source, in fixed memory.
    pub(crate) cells: FixedList<u8, 1024>,
    pub(crate) starts: FixedList<usize, MOST_EQUATIONS>,
    pub(crate) unknowns: usize,
    ghost few: { (length starts ≤ 112) × (unknowns ≤ 128) },
    ghost first: { list_start starts cells 0 ≡ 0 },
    ghost ordered: { ListsOrdered starts cells },
    ghost rising: { (i : ℕ) → i < length starts → NumbersInOrder (list_at starts cells i) },
    ghost fits: { (i j : ℕ) → i < length starts → stands_in (list_at starts cells i) j ≡ true → (1 ≤ j) × (j ≤ unknowns) },
}
