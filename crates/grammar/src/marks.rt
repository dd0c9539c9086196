//! The marks by which a line says what it is.
ghost use Rattle.std.specs.Prelude.{◌≡◌, Some, ◌++◌, codes, encode_utf8};
ghost use Rattle.grammar.specs.Marks.{mark, kind_of, MarksKind};

use std::error::Error;
use std::fmt;

/// What a line is. Its value is the character of its mark.
#[derive(Clone, Copy, PartialEq, Eq, Debug)]
pub enum Kind {
    Equation = b'E' as isize,
    Fault = b'F' as isize,
    Offer = b'S' as isize,
    Comment = b'C' as isize,
}

impl From<Kind> for u8 {
    ghost from_gives = { λ kind c. (c ≡ mark kind) × (kind_of c ≡ Some kind) };

    /// The character of a kind's mark.
    fn from(kind: Kind) -> u8 {
        kind as u8
    }
}

/// A character that is the mark of no kind.
#[derive(Clone, Copy, PartialEq, Eq, Debug)]
pub struct NotAMark(pub char);

impl fmt::Display for NotAMark {
    ghost output = { λ e. Some (codes "no mark is " ++ encode_utf8 e.0) };

    fn fmt<W: fmt::Write>(&self, f: &mut fmt::Formatter<W>) -> fmt::Result {
        write!(f, "no mark is {}", self.0)
    }
}

impl Error for NotAMark {}

impl TryFrom<char> for Kind {
    type Error = NotAMark;

    ghost try_from_gives = { MarksKind };

    /// The kind of the lines that begin with a character and a colon.
    fn try_from(character: char) -> Result<Kind, NotAMark> {
        match character {
            'E' => Ok(Kind::Equation),
            'F' => Ok(Kind::Fault),
            'S' => Ok(Kind::Offer),
            'C' => Ok(Kind::Comment),
            _ => Err(NotAMark(character)),
        }
    }
}
