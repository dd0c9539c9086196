//! The packaged model, with the layers over it.
use crate::show::{Answer, print_source};
use layers::sensors::Sensors;
use layers::transposed::Transposed;
use sets::numbers::UnknownSet;
use source::changes::Change;
use source::questions::Source;
use std::io;

/// The equation that holds these unknowns.
fn equation(unknowns: &[usize]) -> Change {
    let held = unknowns
        .iter()
        .fold(UnknownSet::empty(), |held, &unknown| held.with(unknown));
    Change::AddEquation(held)
}

fn print_layers<S: Source>(rt: &HostRuntime, source: &S) -> io::Result<()> {
    let mut sensors = Sensors::over(source);
    let first = Answer::from(sensors.add(4));
    let second = Answer::from(sensors.add(1));
    println!(rt; " sensors on 4 and 1: {first} {second}")?;
    print_source(rt, "with sensors", &sensors)?;
    print_source(rt, "the other way", &Transposed::over(source))?;
    print_source(
        rt,
        "with sensors, the other way",
        &Transposed::over(&sensors),
    )
}

/// What builds the packaged model: four unknowns, six equations.
pub(crate) fn changes() -> [Change; 10] {
    let unknown = Change::AddUnknown;
    [
        unknown,
        unknown,
        unknown,
        unknown,
        equation(&[1]),
        equation(&[1, 2]),
        equation(&[2, 3]),
        equation(&[3]),
        equation(&[3, 4]),
        equation(&[2]),
    ]
}

/// Prints the model that a source holds, and the layers over it.
pub(crate) fn print_model<S: Source>(rt: &HostRuntime, source: &S) -> io::Result<()> {
    print_source(rt, "model", source)?;
    print_layers(rt, source)
}
