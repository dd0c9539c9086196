//! The line that reports a refused load.
ghost use Rattle.report.specs.Lines.{x_line, Fills};

use crate::areas::put;
use crate::decimals::Decimal;
use grammar::grounds::{Ground, Refusal};

/// Writes the `X:` line of a refusal into an area, from its first byte on, and answers the line's length.
pub fn x_line(refusal: Refusal, area: &mut [u8]) -> Result<usize, Refusal>
    ensures { Fills (x_line refusal) area.old result area.new }
{
    let number = Decimal::of(u32::from(refusal.reason));
    let line = Decimal::of(refusal.line);
    let byte = Decimal::of(refusal.byte);
    let number = number.as_slice();
    let line = line.as_slice();
    let byte = byte.as_slice();
    if area.len() < number.len() + line.len() + byte.len() + 5 {
        return Err(Refusal::from(Ground::AreaTooShort));
    }
    // Kept: a lent area that is too short stays as it was, and `write!` promises nothing of when it succeeds.
    let at = put(area, 0, b"X:");
    let at = put(area, at, number);
    let at = put(area, at, b" ");
    let at = put(area, at, line);
    let at = put(area, at, b" ");
    let at = put(area, at, byte);
    Ok(put(area, at, b"\n"))
}
