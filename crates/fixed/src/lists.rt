//! A list that lies in the value itself.
ghost use Rattle.std.specs.Prelude.{◌≡◌, ◌<◌, ◌≤◌, [], ◌∷◌, ◌++◌, length, nat_lt};

use std::marker::Model;

/// A list of at most `MOST` values. It takes no heap, and emptying it takes as long for many values as for one.
#[derive(Drop)]
pub struct FixedList<T, const MOST: usize> {
    cells: [T; MOST],
    len: usize,
}

/// Clauses see the values, from first to last.
impl<T, const MOST: usize> Model for FixedList<T, MOST> {
    ghost use Rattle.std.specs.Prelude.{◌≡◌, ◌≤◌, List, length, take};
    ghost use Rattle.std.specs.Coded.{coded_list};

    ghost Value = { List T };

    ghost coded = { coded_list T.code };

    ghost view = { λ v. take v.len v.cells };

    ghost invariant = { λ v. (v.len ≤ MOST) × (length v.cells ≡ MOST) };
}

impl<T: Copy, const MOST: usize> FixedList<T, MOST> {
    /// The list of nothing. Until they are written, its cells have the value `blank`.
    pub fn new(blank: T) -> Self
        ensures { result ≡ [] }
    {
        FixedList {
            cells: [blank; MOST],
            len: 0,
        }
    }

    /// How many values there are.
    #[inline]
    pub fn len(&self) -> usize
        ensures { result ≡ length self.now }
    {
        self.as_slice().len()
    }

    /// The values.
    #[inline]
    pub fn as_slice(&self) -> &[T]
        ensures { result.now ≡ self.now }
    {
        &self.cells[..self.len]
    }

    /// One value more, behind the last, and true; false where the list is full, and it stays as it was.
    #[inline]
    pub fn push(&mut self, value: T) -> bool
        ensures room { result ≡ nat_lt (length self.old) MOST }
        ensures values { length self.old < MOST → self.new ≡ self.old ++ value ∷ [] }
        ensures full { MOST ≤ length self.old → self.new ≡ self.old }
    {
        if self.len >= MOST {
            return false;
        }
        self.cells[self.len] = value;
        self.len += 1;
        true
    }

    /// Empties the list.
    pub fn clear(&mut self)
        ensures { self.new ≡ [] }
    {
        self.len = 0;
    }
}
