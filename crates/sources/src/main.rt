//! Builds the packaged model by numbers on three kinds of sources, puts the layers over each, and prints what they answer; then tries the limits.
#![tactic(auto)]

mod limits;
mod model;
mod show;

use dense::rows::Dense;
use source::growing::{Growing, replay, replay_both};
use sparse::lists::Sparse;
use std::io;
use table::kept::Table;

/// Prints the model that a source holds, and tries its limits.
fn show_source<G: Growing>(rt: &HostRuntime, name: &str, source: &mut G) -> io::Result<()> {
    rt.println(name)?;
    model::print_model(rt, &*source)?;
    limits::run(rt, source)
}

fn main(rt: HostRuntime) -> io::Result<()> {
    let mut dense = Dense::new();
    let mut sparse = Sparse::new();
    let mut table = Table::new();
    let changes = model::changes();
    replay(&mut dense, &changes);
    replay_both(&mut sparse, &mut table, &changes);
    show_source(&rt, "dense", &mut dense)?;
    show_source(&rt, "sparse", &mut sparse)?;
    show_source(&rt, "table", &mut table)
}
