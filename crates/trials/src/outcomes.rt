//! What came of an example, and how it is shown: as numbers, with zeros for what there is none of.
use account::accounts::Account;
use grammar::grounds::{LineFault, Refusal};
use line::places::Place;
use line::records::Record;
use std::fmt;

/// Shown as how many words there are, and where the first and the last of them stand.
#[derive(Clone, Copy)]
struct Words<'a>(&'a [Place]);

impl<'a> fmt::Display for Words<'a> {
    fn fmt<W: fmt::Write>(&self, f: &mut fmt::Formatter<W>) -> fmt::Result {
        let words = self.0;
        let (Some(first), Some(last)) = (words.first(), words.last()) else {
            return f.write_str("[0, 0, 0, 0, 0]");
        };
        write!(
            f,
            "[{}, {}, {}, {}, {}]",
            words.len(),
            first.start,
            first.end,
            last.start,
            last.end
        )
    }
}

/// An example as one line, shown as ground and byte of its refusal, and then its words.
#[derive(Clone, Copy)]
pub(crate) struct LineOutcome(pub(crate) Result<Option<Record>, LineFault>);

impl fmt::Display for LineOutcome {
    fn fmt<W: fmt::Write>(&self, f: &mut fmt::Formatter<W>) -> fmt::Result {
        match &self.0 {
            Ok(None) => write!(f, "([0, 0], {})", Words(&[])),
            Ok(Some(record)) => write!(f, "([0, 0], {})", Words(record.words.as_slice())),
            Err(fault) => {
                let ground = u32::from(fault.reason);
                write!(f, "([{ground}, {}], {})", fault.byte, Words(&[]))
            }
        }
    }
}

/// A text, shown as ground, line and byte of its refusal, and then its equations, faults, offers, comments and empty lines.
#[derive(Clone, Copy)]
pub(crate) struct TextOutcome(pub(crate) Result<Account, Refusal>);

impl fmt::Display for TextOutcome {
    fn fmt<W: fmt::Write>(&self, f: &mut fmt::Formatter<W>) -> fmt::Result {
        match self.0 {
            Ok(a) => write!(
                f,
                "([0, 0, 0], [{}, {}, {}, {}, {}])",
                a.equations, a.faults, a.offers, a.comments, a.empty
            ),
            Err(r) => {
                let ground = u32::from(r.reason);
                write!(f, "([{ground}, {}, {}], [0, 0, 0, 0, 0])", r.line, r.byte)
            }
        }
    }
}

/// A refusal's line, shown as its length, and the ground on which it was not written.
#[derive(Clone, Copy)]
pub(crate) struct Written(pub(crate) Result<usize, Refusal>);

impl fmt::Display for Written {
    fn fmt<W: fmt::Write>(&self, f: &mut fmt::Formatter<W>) -> fmt::Result {
        match self.0 {
            Ok(length) => write!(f, "({length}, 0)"),
            Err(r) => write!(f, "(0, {})", u32::from(r.reason)),
        }
    }
}
