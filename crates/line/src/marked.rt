//! A line with its mark, and what the mark asks of the line's words.
ghost use Rattle.std.specs.Prelude.{◌≡◌, ◌<◌, ◌≤◌, true, false, length, is_some, Some, None, MatchResult};
ghost use Rattle.grammar.specs.declared.grounds.Ground.TheVariants.{NoMark, NotAName, WordCount};
ghost use Rattle.grammar.specs.Marks.{line_kind};
ghost use Rattle.grammar.specs.Reading.{line_words, takes};
ghost use Rattle.grammar.specs.Refusals.{fault};
ghost use Rattle.grammar.specs.Words.{words_of, odd_name};
ghost use Rattle.line.specs.Records.{Checks, words_in};

use crate::places::{Place, Places};
use crate::words::Words;
use grammar::grounds::{Ground, LineFault};
use grammar::marks::Kind;

/// A line that is not too long, and its kind by the mark that it has.
#[derive(Clone, Copy)]
pub(crate) struct MarkedLine<'a> {
    pub(crate) kind: Kind,
    pub(crate) line: &'a [u8],
    ghost behind: { 2 ≤ length line.now },
    ghost short: { length line.now ≤ 240 },
    ghost marked: { line_kind line.now ≡ Some kind },
}

fn mark_kind(line: &[u8]) -> Option<Kind>
    ensures value { result ≡ line_kind line.now }
    ensures bound { is_some result ≡ true → 2 ≤ length line.now }
{
    let [mark, b':', ..] = line else {
        return None;
    };
    Kind::try_from(char::from(*mark)).ok()
}

impl<'a> MarkedLine<'a> {
    /// The line with the kind of its mark, if it has one.
    pub(crate) fn of(line: &'a [u8]) -> Result<MarkedLine<'a>, LineFault>
        requires { (0 < length line.now) × (length line.now ≤ 240) }
        ensures { Checks line.now NoMark (λ m. m.line.now ≡ line.now) result }
    {
        let Some(kind) = mark_kind(line) else {
            return Err(LineFault::from(Ground::NoMark));
        };
        Ok(MarkedLine { kind, line })
    }

    fn named_words(self) -> Result<Places, LineFault>
        ensures { MatchResult result (λ ps. (words_in self.entry.line.now ps ≡ words_of self.entry.line.now) × (odd_name (words_of self.entry.line.now) ≡ None)) (λ f. (f ≡ fault NotAName f.byte) × (odd_name (words_of self.entry.line.now) ≡ Some f.byte)) }
    {
        let mut places = Places::none();
        for word in Words::of(self) {
            let (start, end) = word?;
            // Kept: no `From`, since a pair of numbers does not say which is the start.
            places.push(Place { start, end });
        }
        Ok(places)
    }

    /// The places of the line's words, all of them names. A comment has none.
    pub(crate) fn words(self) -> Result<Places, LineFault>
        ensures { Checks self.entry.line.now NotAName (λ ps. words_in self.entry.line.now ps ≡ line_words self.entry.line.now) result }
    {
        match self.kind {
            Kind::Comment => Ok(Places::none()),
            _ => self.named_words(),
        }
    }

    /// Refuses another number of words than the mark calls for.
    pub(crate) fn right_count(self, words: &Places) -> Result<(), LineFault>
        ensures { MatchResult result (λ _. takes self.entry.kind words.now.len ≡ true) (λ f. (f ≡ fault WordCount 0) × (takes self.entry.kind words.now.len ≡ false)) }
    {
        let count = words.as_slice().len();
        let right = match self.kind {
            Kind::Equation => count > 0,
            Kind::Fault => count == 2,
            Kind::Offer => count == 1,
            Kind::Comment => true,
        };
        if !right {
            return Err(LineFault::from(Ground::WordCount));
        }
        Ok(())
    }
}
