//! The decimal digits of a number: the one place where report lines get them from.
ghost use Rattle.std.specs.Prelude.{◌≡◌, ◌≤◌, length, drop, decimal};
ghost use Rattle.report.specs.Numerals.{WritesNumber};

use itoa::write_digits;

/// The digits of a number, at the end of ten places: a 32-bit number has no more.
#[derive(Clone, Copy)]
pub struct Decimal {
    // Kept: tried as an `ArrayString`, but then a `Decimal` got no proof where it is copied.
    pub(crate) places: [u8; 10],
    pub(crate) start: usize,
    ghost within: { (start ≤ 9) × (length places ≡ 10) },
}

impl Decimal {
    /// The digits of a number, the highest first, with no zero in front.
    pub fn of(n: u32) -> Decimal
        ensures value { drop result.start result.places ≡ decimal n }
        ensures reads { WritesNumber n (drop result.start result.places) }
    {
        let mut places = [b'0'; 10];
        let start = write_digits(u64::from(n), &mut places, 10);
        Decimal { places, start }
    }

    /// The digits as bytes.
    pub fn as_slice(&self) -> &[u8]
        ensures value { result.now ≡ drop self.now.start self.now.places }
        ensures bound { length result.now ≤ 10 }
    {
        let start = self.start;
        &self.places[start..]
    }
}
