//! Runs examples of the rules and prints what came of each; the gate compares that with what was worked out by hand.
#![tactic(auto)]

mod cases;
mod limits;
mod outcomes;
mod writing;

use line::texts::Lines;
use std::io;
use std::io::Read;

fn main(rt: HostRuntime) -> io::Result<()> {
    let mut read = Vec::new(rt.alloc());
    rt.stdin().read_to_end(&mut read)?;
    let input = read.as_slice();
    for (start, end) in Lines::of(input) {
        cases::run(&rt, &input[start..end])?;
    }
    limits::run(&rt)?;
    writing::run(&rt)
}
