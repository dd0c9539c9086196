//! A text, cut into its lines.
ghost use Rattle.std.specs.Prelude.{◌≡◌, ◌-◌, ◌<◌, ◌≤◌, [], length, MatchOption, MatchResult};
ghost use Rattle.grammar.specs.declared.grounds.Ground.TheVariants.{TextTooLong};
ghost use Rattle.grammar.specs.Refusals.{fault};
ghost use Rattle.grammar.specs.Texts.{text_lines, lines_from, CutIntoLines, FirstLine, LineStep};
ghost use Rattle.std.specs.Iterator.{at_most};

use crate::lengths::no_more_than;
use crate::words::until;
use grammar::grounds::{Ground, LineFault};

/// Refuses a text of more than 32,768 bytes.
pub fn text_fits(text: &[u8]) -> Result<(), LineFault>
    ensures { MatchResult result (λ _. length text.now ≤ 32768) (λ f. (f ≡ fault TextTooLong 0) × (32768 < length text.now)) }
{
    no_more_than(text, 32768, Ground::TextTooLong)
}

/// The line that begins at an index of the text, as the indices of its first byte and of the byte after its last; none from
/// the end of the text on.
pub fn line_at(text: &[u8], from: usize) -> Option<(usize, usize)>
    ensures { MatchOption result (lines_from text.now from ≡ []) (FirstLine text.now from) }
{
    // Kept: no plainer as one function with `word_at`: both are a test and `until`, and the tests differ in whether an empty piece stands at the end.
    if from >= text.len() {
        return None;
    }
    Some((from, from + until(&text[from..], b'\n')))
}

/// The lines of a text, one after the other.
#[derive(Drop)]
pub struct Lines<'a> {
    pub(crate) text: &'a [u8],
    pub(crate) from: usize,
}

impl<'a> Lines<'a> {
    /// All lines of a text.
    pub fn of(text: &'a [u8]) -> Lines<'a>
        ensures left { (result.text.now ≡ text.now) × (result.from ≡ 0) }
        ensures splits { CutIntoLines text.now (text_lines text.now) }
    {
        Lines { text, from: 0 }
    }
}

impl<'a> Iterator for Lines<'a> {
    type Item = (usize, usize);

    ghost remaining = { λ s. at_most (length s.text.now - s.from) };

    ghost next_gives = { λ s r t. LineStep s.text.now s.from r t.text.now t.from };

    fn next(&mut self) -> Option<(usize, usize)> {
        let (start, end) = line_at(self.text, self.from)?;
        self.from = end + 1;
        Some((start, end))
    }
}
