//! Checks the model text on standard input, and prints an account of its lines or the first that is refused.
#![tactic(auto)]

use account::checking::check_text;
use anyhow::bail;
use grammar::grounds::Refusal;
use report::refusals::x_line;
use std::io::{Read, Write};

/// How much input is taken: enough to tell a text that is too long.
const MOST: u64 = 32769;

fn print_refusal(rt: &HostRuntime, refusal: Refusal) -> anyhow::Result<()> {
    // Kept: the report line is written into an area that is lent for it.
    let mut area = [0u8; 32];
    let Ok(length) = x_line(refusal, &mut area) else {
        bail!("the area is too short for the line");
    };
    rt.stdout().write_all(&area[..length])?;
    Ok(())
}

fn main(rt: HostRuntime) -> anyhow::Result<()> {
    let mut text = Vec::new(rt.alloc());
    rt.stdin().take(MOST).read_to_end(&mut text)?;
    match check_text(&text) {
        Ok(account) => println!(rt; "{account}")?,
        Err(refusal) => print_refusal(&rt, refusal)?,
    }
    Ok(())
}
