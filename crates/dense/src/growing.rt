//! The dense source answers and grows.
ghost use Rattle.std.specs.Prelude.{◌≡◌, ℕ, false, MatchOption};
ghost use Rattle.sets.specs.Members.{member_of};
ghost use Rattle.source.specs.Growth.{vacant};
ghost use Rattle.dense.specs.Rows.{dense_means, dense_bounded};

use crate::rows::Dense;
use fixed::lists::FixedList;
use sets::numbers::UnknownSet;
use source::faults::SourceFault;
use source::growing::{Growing, admits_equation, admits_unknown};
use source::questions::Source;

impl Dense {
    /// A dense source with no equations and no unknowns.
    pub fn new() -> Self
        ensures { dense_means result ≡ vacant }
    {
        Dense {
            rows: FixedList::new(UnknownSet::empty()),
            unknowns: 0,
        }
    }

    /// The row of an equation; none for a number that does not exist.
    fn row(&self, equation: usize) -> Option<UnknownSet>
        ensures { MatchOption result ((j : ℕ) → (dense_means self.now).holds equation j ≡ false) (λ row. (j : ℕ) → (dense_means self.now).holds equation j ≡ member_of row.bits j) }
    {
        self.rows.as_slice().get(equation.checked_sub(1)?).copied()
    }
}

impl Source for Dense {
    ghost means = { dense_means };

    ghost bounded = { dense_bounded };

    fn equations(&self) -> usize {
        self.rows.len()
    }

    fn unknowns(&self) -> usize {
        self.unknowns
    }

    fn holds(&self, equation: usize, unknown: usize) -> bool {
        self.row(equation).is_some_and(|row| row.holds(unknown))
    }

    fn pairs(&self) -> usize {
        self.rows.as_slice().iter().map(|row| row.len()).sum()
    }

    fn next(&self, equation: usize, unknown: usize) -> Option<usize> {
        if unknown == 0 {
            return None;
        }
        self.row(equation)?.next_from(unknown)
    }
}

impl Growing for Dense {
    const ROOM: usize = 14336;

    ghost ROOM = { 14336 };

    // Kept: `clear` and `add_unknown` read alike in the three sources. A shared form is no plainer: it needs a trait that lends `unknowns` of each.
    fn clear(&mut self) {
        self.rows.clear();
        self.unknowns = 0;
    }

    fn add_unknown(&mut self) -> Result<(), SourceFault> {
        admits_unknown(self)?;
        self.unknowns += 1;
        Ok(())
    }

    fn add_equation(&mut self, unknowns: UnknownSet) -> Result<(), SourceFault> {
        admits_equation(self, Self::ROOM, unknowns)?;
        self.rows.push(unknowns);
        Ok(())
    }
}
