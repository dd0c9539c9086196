//! The table of examples: one to a line of the input, in which `|` stands for the byte that ends a line.
use crate::outcomes::{LineOutcome, TextOutcome};
use account::checking::check_text;
use line::reading::read_line;
use std::alloc::{AllocError, Global};
use std::io;

/// The text that an example stands for.
fn text_of(heap: Global, example: &[u8]) -> Result<Vec<u8>, AllocError> {
    example
        .iter()
        .map(|b| if *b == b'|' { b'\n' } else { *b })
        .collect(heap)
}

pub(crate) fn run(rt: &HostRuntime, example: &[u8]) -> io::Result<()> {
    let text = text_of(rt.alloc(), example)?;
    let line = LineOutcome(read_line(&text));
    let lines = TextOutcome(check_text(&text));
    println!(rt; "{line} {lines}")
}
