//! What a growing source takes up at most.
use crate::show::Answer;
use layers::sensors::Sensors;
use sets::numbers::UnknownSet;
use source::faults::SourceFault;
use source::growing::Growing;
use source::questions::Source;
use std::{fmt, io};

/// How often an addition is tried at most: more often than any limit allows.
const TRIES: usize = 200;

/// How many additions were taken, and the refusal that ended them.
#[derive(Drop)]
struct Filling {
    taken: usize,
    end: Answer,
}

impl fmt::Display for Filling {
    fn fmt<W: fmt::Write>(&self, f: &mut fmt::Formatter<W>) -> fmt::Result {
        write!(f, "({}, {})", self.taken, self.end)
    }
}

/// Adds again and again until that is refused.
fn fill<A: FnMut() -> Result<(), SourceFault>>(mut add: A) -> Filling
    requires { A.IsAlwaysCallable add }
{
    for taken in 0..TRIES {
        let answer = add();
        if answer.is_err() {
            let end = Answer::from(answer);
            return Filling { taken, end };
        }
    }
    Filling {
        taken: TRIES,
        end: Answer::from(Ok(())),
    }
}

/// All unknowns that there can be.
fn every_unknown() -> UnknownSet {
    UnknownSet::from_words(u64::MAX, u64::MAX)
}

fn print_filling<G: Growing>(rt: &HostRuntime, source: &mut G) -> io::Result<()> {
    source.clear();
    let unknown_without = Answer::from(source.add_equation(UnknownSet::empty().with(1)));
    let unknowns = fill(|| source.add_unknown());
    let nothing = fill(|| source.add_equation(UnknownSet::empty()));
    println!(rt; " equation with an unknown that does not exist: {unknown_without}")?;
    println!(rt; " unknowns taken {unknowns}, equations that hold nothing {nothing}")?;
    source.clear();
    let _ = fill(|| source.add_unknown());
    let all = fill(|| source.add_equation(every_unknown()));
    let pairs = source.pairs();
    let one = Answer::from(source.add_equation(UnknownSet::empty().with(128)));
    let none = Answer::from(source.add_equation(UnknownSet::empty()));
    let room = (
        source.room_for(0),
        source.room_for(1),
        source.room_for(usize::MAX),
    );
    println!(rt;
        " equations that hold all {all}, {pairs} pairs, then one pair {one}, no pair {none}, room for {room:?}"
    )
}

fn print_sensors<G: Growing>(rt: &HostRuntime, source: &mut G) -> io::Result<()> {
    source.clear();
    let _ = fill(|| source.add_unknown());
    let mut few = Sensors::over(&*source);
    let none = Answer::from(few.add(0));
    let past = Answer::from(few.add(129));
    let last = Answer::from(few.add(128));
    println!(rt; " sensors on 0, 129, 128: ({none}, {past}, {last})")?;
    let _ = fill(|| source.add_equation(UnknownSet::empty()));
    let mut low = Sensors::over(&*source);
    let first = fill(|| low.add(3));
    let mut high = Sensors::over(&low);
    let second = fill(|| high.add(3));
    let equations = high.equations();
    println!(rt; " sensors taken {first}, over these {second}, {equations} equations")
}

/// Numbers 0 and past the end, of a source of one equation that holds unknowns 2 and 128.
fn print_edges<G: Growing>(rt: &HostRuntime, source: &mut G) -> io::Result<()> {
    source.clear();
    let _ = fill(|| source.add_unknown());
    let _ = source.add_equation(UnknownSet::empty().with(2).with(128));
    let held = (
        source.holds(1, 2),
        source.holds(1, 1),
        source.holds(0, 2),
        source.holds(1, 0),
        source.holds(2, 2),
        source.holds(1, 129),
    );
    let next = (
        source.next(1, 1),
        source.next(1, 3),
        source.next(1, 0),
        source.next(0, 1),
        source.next(2, 1),
        source.next(1, 129),
    );
    println!(rt; " held {held:?}")?;
    println!(rt; " next {next:?}")
}

/// Tries the limits of a source.
pub(crate) fn run<G: Growing>(rt: &HostRuntime, source: &mut G) -> io::Result<()> {
    print_filling(rt, source)?;
    print_sensors(rt, source)?;
    print_edges(rt, source)
}
