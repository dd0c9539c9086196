//! Decimal numbers and the line of a refusal.
use crate::outcomes::Written;
use grammar::grounds::{Ground, Refusal};
use report::decimals::Decimal;
use report::refusals::x_line;
use std::io;
use std::io::Write;

fn show_number(rt: &HostRuntime, n: u32) -> io::Result<()> {
    let decimal = Decimal::of(n);
    rt.stdout().write_all(decimal.as_slice())?;
    rt.stdout().write_all(b"\n")
}

/// Writes the line of a refusal into an area of points, and shows all of the area.
fn show_area(rt: &HostRuntime, area: &mut [u8]) -> io::Result<()> {
    let refusal = Refusal {
        reason: Ground::GoalNotMet,
        line: 32768,
        byte: 241,
    };
    let outcome = Written(x_line(refusal, area));
    rt.stdout().write_all(area)?;
    println!(rt; "{outcome}")
}

/// Numbers of one to ten digits; areas with more room than the line takes, with just enough, and with one byte too few.
pub(crate) fn run(rt: &HostRuntime) -> io::Result<()> {
    for n in [0, 7, 10, 99, 100, 32768, 1000000000, 4294967295] {
        show_number(rt, n)?;
    }
    show_area(rt, &mut [b'.'; 18])?;
    show_area(rt, &mut [b'.'; 15])?;
    show_area(rt, &mut [b'.'; 14])
}
