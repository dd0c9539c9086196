//! The table answers and grows.
ghost use Rattle.std.specs.Prelude.{◌≡◌, false, MatchOption};
ghost use Rattle.source.specs.Growth.{vacant};
ghost use Rattle.table.specs.Rows.{table_means, table_bounded};

use crate::flags::flags;
use crate::kept::Table;
use fixed::lists::FixedList;
use sets::numbers::UnknownSet;
use source::faults::SourceFault;
use source::growing::{Growing, MOST_UNKNOWNS, admits_equation, admits_unknown};
use source::questions::Source;

impl Table {
    /// A table with no equations and no unknowns.
    pub fn new() -> Self
        ensures { table_means result ≡ vacant }
    {
        Table {
            rows: FixedList::new([false; MOST_UNKNOWNS]),
            unknowns: 0,
        }
    }

    /// The flag of an equation for an unknown; none where one of the numbers has no place in the table.
    fn flag(&self, equation: usize, unknown: usize) -> Option<bool>
        ensures { MatchOption result ((table_means self.now).holds equation unknown ≡ false) (λ flag. (table_means self.now).holds equation unknown ≡ flag) }
    {
        let row = self.rows.as_slice().get(equation.checked_sub(1)?)?;
        if unknown > self.unknowns {
            return None;
        }
        Some(row[unknown.checked_sub(1)?])
    }
}

impl Source for Table {
    ghost means = { table_means };

    ghost bounded = { table_bounded };

    fn equations(&self) -> usize {
        self.rows.len()
    }

    fn unknowns(&self) -> usize {
        self.unknowns
    }

    fn holds(&self, equation: usize, unknown: usize) -> bool {
        self.flag(equation, unknown).unwrap_or(false)
    }
}

impl Growing for Table {
    const ROOM: usize = 1024;

    ghost ROOM = { 1024 };

    // Kept: `clear` and `add_unknown` read alike in the three sources. A shared form is no plainer: it needs a trait that lends `unknowns` of each. And the
    // table is no instance of one source over kinds of rows, by the rule that an example of a source of one's own is written from nothing but the traits.
    fn clear(&mut self) {
        self.rows.clear();
        self.unknowns = 0;
    }

    fn add_unknown(&mut self) -> Result<(), SourceFault> {
        admits_unknown(self)?;
        self.unknowns += 1;
        Ok(())
    }

    fn add_equation(&mut self, unknowns: UnknownSet) -> Result<(), SourceFault> {
        admits_equation(self, Self::ROOM, unknowns)?;
        self.rows.push(flags(unknowns));
        Ok(())
    }
}
