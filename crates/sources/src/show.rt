//! Prints what a source answers.
use source::faults::SourceFault;
use source::questions::Source;
use std::{fmt, io};

/// How an addition was answered, shown as the number of its refusal, or 0 if there was none.
#[derive(Drop)]
pub(crate) struct Answer(Result<(), SourceFault>);

impl From<Result<(), SourceFault>> for Answer {
    fn from(answer: Result<(), SourceFault>) -> Answer {
        Answer(answer)
    }
}

impl fmt::Display for Answer {
    fn fmt<W: fmt::Write>(&self, f: &mut fmt::Formatter<W>) -> fmt::Result {
        let number = match self.0 {
            Ok(()) => 0,
            Err(fault) => u32::from(fault),
        };
        write!(f, "{number}")
    }
}

fn print_row<S: Source>(rt: &HostRuntime, source: &S, equation: usize) -> io::Result<()> {
    print!(rt; "  {equation}:")?;
    // Kept: this tries `next`, where each answer says from where to ask on. Tried as a `for` over `iter::successors`, but the proof did not close.
    let mut from = 1;
    while let Some(unknown) = source.next(equation, from) {
        print!(rt; " {unknown}")?;
        from = unknown + 1;
    }
    rt.println("")
}

/// A line with the numbers of equations, unknowns and pairs, then a line for each equation with its unknowns.
pub(crate) fn print_source<S: Source>(rt: &HostRuntime, name: &str, source: &S) -> io::Result<()> {
    // Kept: no plainer as a `Display`, since lines are printed while the source is asked.
    let equations = source.equations();
    let unknowns = source.unknowns();
    let pairs = source.pairs();
    println!(rt; " {name}: {equations} equations, {unknowns} unknowns, {pairs} pairs")?;
    for equation in 1..=equations {
        print_row(rt, source, equation)?;
    }
    Ok(())
}
