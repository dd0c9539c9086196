//! A source read the other way.
ghost use Rattle.std.specs.Prelude.{◌≡◌};
ghost use Rattle.layers.specs.Layers.{transpose_of, transposed_mean};
ghost use Rattle.source.specs.Meaning.{pair_count};
ghost use Rattle.layers.specs.Bounds.{transposed_bounded};

use source::questions::Source;

/// A source read the other way: its equations are the unknowns below, and its unknowns the equations below.
#[derive(Drop)]
pub struct Transposed<S> {
    below: S,
}

impl<S: Source> Transposed<S> {
    /// Reads the source the other way. Read the other way again, it is the source; and its pairs, counted by unknowns, are as many as by equations.
    pub fn over(source: S) -> Self
        ensures meaning { transposed_mean S.Source.means result ≡ transpose_of (S.Source.means source) }
        ensures twice { transpose_of (transposed_mean S.Source.means result) ≡ S.Source.means source }
        ensures pairs { pair_count (transposed_mean S.Source.means result) ≡ pair_count (S.Source.means source) }
    {
        Transposed { below: source }
    }
}

impl<S: Source> Source for Transposed<S> {
    ghost means = { transposed_mean S.Source.means };

    ghost bounded = { λ t. transposed_bounded (S.Source.means t.below) (S.Source.bounded t.below) };

    fn equations(&self) -> usize {
        self.below.unknowns()
    }

    fn unknowns(&self) -> usize {
        self.below.equations()
    }

    fn holds(&self, equation: usize, unknown: usize) -> bool {
        self.below.holds(unknown, equation)
    }

    fn pairs(&self) -> usize {
        self.below.pairs()
    }
}
