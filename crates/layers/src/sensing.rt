//! Sensors behind the equations of a source.
ghost use Rattle.std.specs.Prelude.{◌≡◌, []};
ghost use Rattle.layers.specs.Bounds.{sensors_bounded};
ghost use Rattle.layers.specs.Layers.{sensors_of, sensors_mean, sensed, AddsSensor};

use crate::sensors::Sensors;
use arrayvec::ArrayVec;
use source::faults::SourceFault;
use source::questions::Source;

/// The most equations that a source has, growing or not.
const MOST_OF_ANY_SOURCE: usize = 128;

impl<S: Source> Sensors<S> {
    /// The source, with no sensor yet.
    pub fn over(source: S) -> Self
        ensures meaning { sensors_mean S.Source.means result ≡ S.Source.means source }
        ensures none { sensors_of result ≡ [] }
        ensures below { result.below ≡ source }
    {
        Sensors {
            below: source,
            on: ArrayVec::new(),
        }
    }

    /// One more equation behind the last, which holds just `unknown`.
    pub fn add(&mut self, unknown: usize) -> Result<(), SourceFault>
        ensures { AddsSensor S.Source.means self.old unknown self.new result }
    {
        if self.on.is_full() || self.equations() >= MOST_OF_ANY_SOURCE {
            return Err(SourceFault::Limit);
        }
        if unknown == 0 || unknown > self.unknowns() {
            return Err(SourceFault::NoSuchUnknown);
        }
        self.on.push(unknown);
        Ok(())
    }

    /// The unknown that an equation behind those of the source holds, if it holds one.
    fn measured(&self, equation: usize) -> Option<usize>
        ensures { result ≡ sensed (S.Source.means self.now.below) (sensors_of self.now) equation }
    {
        let unknown = *self
            .on
            .get(equation.checked_sub(self.below.equations() + 1)?)?;
        let is_held = equation <= MOST_OF_ANY_SOURCE && unknown != 0 && unknown <= self.unknowns();
        is_held.then_some(unknown)
    }
}

impl<S: Source> Source for Sensors<S> {
    ghost means = { sensors_mean S.Source.means };

    ghost bounded = { λ s. sensors_bounded (S.Source.means s.below) (S.Source.bounded s.below) (sensors_of s) };

    fn equations(&self) -> usize {
        (self.below.equations() + self.on.len()).min(MOST_OF_ANY_SOURCE)
    }

    fn unknowns(&self) -> usize {
        self.below.unknowns()
    }

    fn holds(&self, equation: usize, unknown: usize) -> bool {
        if equation <= self.below.equations() {
            return self.below.holds(equation, unknown);
        }
        self.measured(equation)
            .is_some_and(|measured| measured == unknown)
    }

    fn pairs(&self) -> usize {
        let first = self.below.equations() + 1;
        let sensors = first..self.equations() + 1;
        self.below.pairs() + sensors.filter(|&i| self.measured(i).is_some()).count()
    }

    fn next(&self, equation: usize, unknown: usize) -> Option<usize> {
        if equation <= self.below.equations() {
            return self.below.next(equation, unknown);
        }
        if unknown == 0 {
            return None;
        }
        self.measured(equation)
            .filter(|&measured| measured >= unknown)
    }
}
