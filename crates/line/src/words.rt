//! The words of a line, taken one after the other.
ghost use Rattle.std.specs.Prelude.{◌≡◌, ◌+◌, ◌-◌, ◌<◌, ◌≤◌, length, MatchOption};
ghost use Rattle.std.specs.List.{list_all};
ghost use Rattle.std.specs.Iterator.{at_most};
ghost use Rattle.line.specs.Taking.{FirstWord, NextWord, WordStep};
ghost use Rattle.grammar.specs.Pieces.{Front};
ghost use Rattle.grammar.specs.Words.{is_letter, is_name_byte, obeys_name_rule, word, words_from, words_of};

use crate::marked::MarkedLine;
use grammar::grounds::{Ground, LineFault};

fn is_letter(b: u8) -> bool
    ensures { result ≡ is_letter b }
{
    b.is_ascii_alphabetic()
}

fn is_name_byte(b: u8) -> bool
    ensures { result ≡ is_name_byte b }
{
    b.is_ascii_alphanumeric() || b == b'_'
}

/// The index of the first separator, or the length where there is none.
pub(crate) fn until(bytes: &[u8], separator: u8) -> usize
    ensures { Front separator result bytes.now }
{
    bytes
        .iter()
        .position(|b| *b == separator)
        .unwrap_or(bytes.len())
}

fn all_name_bytes(bytes: &[u8]) -> bool
    ensures { result ≡ list_all is_name_byte bytes.now }
{
    bytes.iter().all(|b| is_name_byte(*b))
}

/// Whether a word obeys the rule for names.
fn is_name(word: &[u8]) -> bool
    ensures { result ≡ obeys_name_rule word.now }
{
    let [first, rest @ ..] = word else {
        return false;
    };
    is_letter(*first) && rest.len() <= 7 && all_name_bytes(rest)
}

/// The word that begins at an index of the line, as the indices of its first byte and of the byte after its last; none past
/// the end of the line.
pub fn word_at(line: &[u8], from: usize) -> Option<(usize, usize)>
    ensures { MatchOption result (length line.now < from) (FirstWord line.now from) }
{
    // Kept: a next-word call answers a tuple of plain numbers, and so do `next_word`, `line_at` and the iterators over them.
    if from > line.len() {
        return None;
    }
    Some((from, from + until(&line[from..], b' ')))
}

/// The same word as `word_at` gives, if it is a name; a word that is none is refused at its first byte, or where it would
/// stand if it is empty.
pub fn next_word(line: &[u8], from: usize) -> Result<Option<(usize, usize)>, LineFault>
    ensures { NextWord line.now from result }
{
    let Some((start, end)) = word_at(line, from) else {
        return Ok(None);
    };
    if !is_name(&line[start..end]) {
        return Err(LineFault {
            reason: Ground::NotAName,
            byte: start + 1,
        });
    }
    Ok(Some((start, end)))
}

/// The words after a line's mark, one after the other, up to the first that is no name.
#[derive(Drop)]
pub(crate) struct Words<'a> {
    pub(crate) marked: MarkedLine<'a>,
    // Kept: no plainer as an `Option`, since a word is asked for by an index, and past the end of the line there is none.
    pub(crate) from: usize,
}

impl<'a> Words<'a> {
    pub(crate) fn of(marked: MarkedLine<'a>) -> Words<'a>
        ensures { (result.marked ≡ marked.entry) × (2 ≤ result.from) × (words_from marked.entry.line.now result.from ≡ words_of marked.entry.line.now) }
    {
        let len = marked.line.len();
        let from = if len > 2 { 2 } else { len + 1 };
        Words { marked, from }
    }
}

impl<'a> Iterator for Words<'a> {
    type Item = Result<(usize, usize), LineFault>;

    ghost remaining = { λ s. at_most ((length s.marked.line.now + 1) - s.from) };

    ghost next_gives = { λ s r t. WordStep s.marked.line.now s.from r t.marked.line.now t.from };

    fn next(&mut self) -> Option<Result<(usize, usize), LineFault>> {
        let line = self.marked.line;
        let word = next_word(line, self.from).transpose()?;
        self.from = match word {
            Ok((_, end)) => end + 1,
            Err(_) => line.len() + 1,
        };
        Some(word)
    }
}
