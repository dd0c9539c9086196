//! What every source answers.
ghost use Rattle.std.specs.Prelude.{◌≡◌, ℕ};
ghost use Rattle.source.specs.Meaning.{Meaning, WithinLimits, pair_count, NextUnknown};

/// The structure of a model: which equations hold which unknowns, both numbered from 1, at most 128 of each.
pub trait Source {
    /// The equations, the unknowns and the pairs that a source stands for.
    ghost means: { Self → Meaning };

    /// No source passes 128 equations or unknowns, or has a pair outside their numbers.
    ghost bounded: { (s : Self) → WithinLimits (means s) };

    /// How many equations there are.
    fn equations(&self) -> usize
        ensures { result ≡ (means self.now).m };

    /// How many unknowns there are.
    fn unknowns(&self) -> usize
        ensures { result ≡ (means self.now).n };

    /// Whether the equation holds the unknown; false for 0 and past the end.
    // Kept: no plainer as one value of two numbers, since callers have an equation's number and an unknown's from different places.
    fn holds(&self, equation: usize, unknown: usize) -> bool
        ensures { result ≡ (means self.now).holds equation unknown };

    /// How many pairs of an equation and an unknown that it holds there are.
    fn pairs(&self) -> usize
        ensures { result ≡ pair_count (means self.now) }
    {
        let mut count: usize = 0;
        let equations = self.equations();
        let unknowns = self.unknowns();
        // Kept: tried as `filter` and `count` of each row, which took four times as long on the table.
        for i in 0..equations {
            for j in 0..unknowns {
                if self.holds(i + 1, j + 1) {
                    count += 1;
                }
            }
        }
        count
    }

    /// The lowest unknown that the equation holds from `unknown` on; none if there is none, and for 0 and past the end.
    fn next(&self, equation: usize, unknown: usize) -> Option<usize>
        ensures { NextUnknown (means self.now) equation unknown result }
    {
        if unknown == 0 {
            return None;
        }
        (unknown..self.unknowns() + 1).find(|&j| self.holds(equation, j))
    }
}

/// A source that is only looked at is a source.
impl<S: Source> Source for &S {
    ghost means = { λ s. S.Source.means s.now };

    ghost bounded = { λ s. S.Source.bounded s.now };

    fn equations(&self) -> usize {
        (**self).equations()
    }

    fn unknowns(&self) -> usize {
        (**self).unknowns()
    }

    fn holds(&self, equation: usize, unknown: usize) -> bool {
        (**self).holds(equation, unknown)
    }

    fn pairs(&self) -> usize {
        (**self).pairs()
    }

    fn next(&self, equation: usize, unknown: usize) -> Option<usize> {
        (**self).next(equation, unknown)
    }
}
