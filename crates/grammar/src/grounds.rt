//! The grounds on which a call is refused, and what a refused line or text is told.
ghost use Rattle.std.specs.Prelude.{◌≡◌};
ghost use Rattle.grammar.specs.Refusals.{ground_number, fault};

/// Every ground for a refusal. Its value is the number that a user is shown.
#[derive(Clone, Copy, PartialEq, Eq, Debug)]
pub enum Ground {
    /// The text exceeds 32,768 bytes.
    TextTooLong = 1,
    /// The line exceeds 240 bytes.
    LineTooLong = 2,
    /// The line has a byte below 32 or above 126.
    ByteOutside = 3,
    /// A line with at least one byte starts with none of the four marks.
    NoMark = 4,
    /// A word breaks the rule for names.
    NotAName = 5,
    /// The mark calls for another number of words.
    WordCount = 6,
    /// A new name is in use, or an equation mentions an unknown again.
    NameTaken = 7,
    /// A name is looked up and stands for nothing.
    NotFound = 8,
    /// The model would outgrow one of its limits.
    ModelFull = 9,
    /// The source would outgrow its room.
    SourceFull = 10,
    /// A number or a bit stands for nothing.
    NoSuchNumber = 11,
    /// There is no such goal.
    NoSuchGoal = 12,
    /// The choice has an offer that is missing or not open.
    OfferNotOpen = 13,
    /// The page has room for no set.
    PageTooShort = 14,
    /// The area is shorter than what is to be written.
    AreaTooShort = 15,
    /// The goal is out of reach of all open choices.
    GoalNotMet = 16,
}

impl From<Ground> for u32 {
    ghost from_gives = { λ g n. n ≡ ground_number g };

    /// The number under which a ground is reported.
    fn from(ground: Ground) -> u32 {
        ground as u32
    }
}

/// Why a line is refused, and at which of its bytes, counted from 1; 0 where no byte is at fault.
#[derive(Clone, Copy, PartialEq, Eq, Debug)]
pub struct LineFault {
    pub reason: Ground,
    // Kept: no plainer as an `Option`, since reports show 0 where no byte is at fault, and the law of the leftmost place compares numbers.
    pub byte: usize,
}

impl From<Ground> for LineFault {
    ghost from_gives = { λ g f. f ≡ fault g 0 };

    /// The fault on a ground for which no byte is at fault.
    fn from(reason: Ground) -> LineFault {
        LineFault { reason, byte: 0 }
    }
}

/// What a user is shown of a refused call: the ground, and the line and the byte at fault, both counted from 1, or 0.
#[derive(Clone, Copy, PartialEq, Eq, Debug)]
pub struct Refusal {
    pub reason: Ground,
    // Kept: no plainer as `Option`s, since this is what is shown, and 0 is shown where no line or no byte is at fault.
    pub line: u32,
    pub byte: u32,
}

impl From<Ground> for Refusal {
    ghost from_gives = { λ g r. r ≡ record { reason = g; line = 0; byte = 0 } };

    /// The refusal on a ground for which no line is at fault.
    fn from(reason: Ground) -> Refusal {
        Refusal {
            reason,
            line: 0,
            byte: 0,
        }
    }
}
