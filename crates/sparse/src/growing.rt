//! The sparse source answers and grows.
ghost use Rattle.std.specs.Prelude.{◌≡◌};
ghost use Rattle.source.specs.Growth.{vacant};
ghost use Rattle.sparse.specs.Lists.{end_of, list_of, sparse_means, sparse_bounded};

use crate::filling::fill;
use crate::lists::Sparse;
use fixed::lists::FixedList;
use sets::numbers::UnknownSet;
use source::faults::SourceFault;
use source::growing::{Growing, admits_equation, admits_unknown};
use source::questions::Source;

impl Sparse {
    /// A sparse source with no equations and no unknowns.
    pub fn new() -> Self
        ensures { sparse_means result ≡ vacant }
    {
        Sparse {
            cells: FixedList::new(0),
            starts: FixedList::new(0),
            unknowns: 0,
        }
    }

    /// Where the list of an equation ends: where the next one begins, or where the cells end.
    fn end(&self, equation: usize) -> usize
        ensures { result ≡ end_of self.now equation }
    {
        self.starts
            .as_slice()
            .get(equation)
            .copied()
            .unwrap_or(self.cells.len())
    }

    /// The list of an equation; empty for a number that does not exist.
    fn list(&self, equation: usize) -> &[u8]
        ensures { result.now ≡ list_of self.now equation }
    {
        &self.cells.as_slice()[self.end(equation.saturating_sub(1))..self.end(equation)]
    }
}

impl Source for Sparse {
    ghost means = { sparse_means };

    ghost bounded = { sparse_bounded };

    fn equations(&self) -> usize {
        self.starts.len()
    }

    fn unknowns(&self) -> usize {
        self.unknowns
    }

    fn holds(&self, equation: usize, unknown: usize) -> bool {
        self.list(equation)
            .iter()
            .any(|&cell| usize::from(cell) == unknown)
    }

    fn pairs(&self) -> usize {
        self.cells.len()
    }

    fn next(&self, equation: usize, unknown: usize) -> Option<usize> {
        if unknown == 0 {
            return None;
        }
        self.list(equation)
            .iter()
            .map(|&cell| usize::from(cell))
            .find(|&found| found >= unknown)
    }
}

impl Growing for Sparse {
    const ROOM: usize = 1024;

    ghost ROOM = { 1024 };

    // Kept: `clear` and `add_unknown` read alike in the three sources. A shared form is no plainer: it needs a trait that lends `unknowns` of each.
    fn clear(&mut self) {
        self.cells.clear();
        self.starts.clear();
        self.unknowns = 0;
    }

    fn add_unknown(&mut self) -> Result<(), SourceFault> {
        admits_unknown(self)?;
        self.unknowns += 1;
        Ok(())
    }

    fn add_equation(&mut self, unknowns: UnknownSet) -> Result<(), SourceFault> {
        admits_equation(self, Self::ROOM, unknowns)?;
        self.starts.push(self.cells.len());
        fill(&mut self.cells, unknowns);
        Ok(())
    }
}
