//! A line is read ground by ground, in the order in which grounds are checked.
ghost use Rattle.std.specs.Prelude.{◌≡◌, ◌≤◌, length};
ghost use Rattle.grammar.specs.declared.grounds.Ground.TheVariants.{LineTooLong, ByteOutside};
ghost use Rattle.grammar.specs.Reading.{is_plain};
ghost use Rattle.line.specs.Records.{Checks, ChecksTwo, ReadsLine};

use crate::lengths::no_more_than;
use crate::marked::MarkedLine;
use crate::records::Record;
use grammar::grounds::{Ground, LineFault};

fn is_plain(b: u8) -> bool
    ensures { result ≡ is_plain b }
{
    matches!(b, 32..=126)
}

fn plain_bytes(line: &[u8]) -> Result<(), LineFault>
    ensures { Checks line.now ByteOutside (λ _. Unit {0}) result }
{
    // Kept: the rule of the project that a loop over the bytes of a line is a `for` with their index, which tells the byte at fault.
    for (i, b) in line.iter().enumerate() {
        if !is_plain(*b) {
            return Err(LineFault {
                reason: Ground::ByteOutside,
                byte: i + 1,
            });
        }
    }
    Ok(())
}

/// The two grounds that every line is checked for, comments too.
fn sound_bytes(line: &[u8]) -> Result<(), LineFault>
    ensures { ChecksTwo line.now LineTooLong ByteOutside (length line.now ≤ 240) result }
{
    no_more_than(line, 240, Ground::LineTooLong)?;
    plain_bytes(line)
}

/// Reads one line, without the byte 10 behind it. An empty line reads as no record.
pub fn read_line(line: &[u8]) -> Result<Option<Record>, LineFault>
    ensures { ReadsLine line.now result }
{
    sound_bytes(line)?;
    if line.is_empty() {
        return Ok(None);
    }
    let marked = MarkedLine::of(line)?;
    let words = marked.words()?;
    marked.right_count(&words)?;
    Ok(Some(Record {
        kind: marked.kind,
        words,
    }))
}
