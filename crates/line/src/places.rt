//! Where the words of a line stand.
ghost use Rattle.std.specs.Prelude.{◌≡◌, ◌+◌, ◌<◌, ◌≤◌, [], ◌∷◌, ◌++◌, length, take};
ghost use Rattle.line.specs.declared.places.TheConstants.{MOST};

/// One word's place: the indices of its first byte and of the byte after its last.
#[derive(Clone, Copy)]
pub struct Place {
    pub start: usize,
    pub end: usize,
}

/// The most words that a line can have: 238 bytes follow its mark, and a word takes one byte and a space.
const MOST: usize = 119;

/// The places of a line's words, from left to right.
#[derive(Clone, Copy)]
pub struct Places {
    // Kept: reading a line takes no heap and a record is `Copy`, and no vector of the toolchain is, `ArrayVec` among them.
    pub(crate) all: [Place; MOST],
    pub(crate) len: usize,
    ghost within: { (len ≤ 119) × (length all ≡ 119) },
}

impl Places {
    pub(crate) fn none() -> Places
        ensures { result.len ≡ 0 }
    {
        Places {
            all: [Place { start: 0, end: 0 }; MOST],
            len: 0,
        }
    }

    /// Notes where one word more stands.
    pub(crate) fn push(&mut self, place: Place)
        requires { self.old.len < MOST }
        ensures places { take self.new.len self.new.all ≡ take self.old.len self.old.all ++ place ∷ [] }
        ensures len { self.new.len ≡ self.old.len + 1 }
    {
        self.all[self.len] = place;
        self.len += 1;
    }

    /// The places, one for each word.
    pub fn as_slice(&self) -> &[Place]
        ensures { result.now ≡ take self.now.len self.now.all }
    {
        let n = self.len;
        &self.all[0..n]
    }
}
