//! Texts and lines at their limits.
use crate::outcomes::TextOutcome;
use account::checking::check_text;
use std::alloc::{AllocError, Global};
use std::io;

/// The bytes of a pair 118 times behind a mark, and then some more bytes.
fn line_of(heap: Global, mark: &[u8], pair: [u8; 2], more: &[u8]) -> Result<Vec<u8>, AllocError> {
    let mut line = Vec::from_slice(heap, mark)?;
    for _ in 0..118 {
        line.extend_from_slice(&pair)?;
    }
    line.extend_from_slice(more)?;
    Ok(line)
}

fn show(rt: &HostRuntime, text: &[u8]) -> io::Result<()> {
    let outcome = TextOutcome(check_text(text));
    println!(rt; "{outcome}")
}

/// A text of so many empty lines.
fn show_empty(rt: &HostRuntime, lines: usize) -> io::Result<()> {
    let text = vec![in rt.alloc(); b'\n'; lines]?;
    show(rt, &text)
}

/// Texts of 32,768 and 32,769 bytes; lines of 240 and 241; a line with as many words as fit, and with a space behind them.
pub(crate) fn run(rt: &HostRuntime) -> io::Result<()> {
    let heap = rt.alloc();
    show_empty(rt, 32768)?;
    show_empty(rt, 32769)?;
    show(rt, &line_of(heap, b"C:", [b'x', b'~'], b"xx")?)?;
    show(rt, &line_of(heap, b"C:", [b'x', b'~'], b"xxx")?)?;
    show(rt, &line_of(heap, b"C:", [b'x', b'\t'], b"xx")?)?;
    show(rt, &line_of(heap, b"C:", [b'x', b'\t'], b"xxx")?)?;
    show(rt, &line_of(heap, b"E:", [b'u', b' '], b"u")?)?;
    show(rt, &line_of(heap, b"E:", [b'u', b' '], b"u ")?)
}
