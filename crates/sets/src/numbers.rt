//! Sets of numbers from 1 to 128, kept as bits.
ghost use Rattle.std.specs.Prelude.{◌≡◌, ℕ, ◌-◌, ◌^◌, true, false, Decides, MatchOption};
ghost use Rattle.sets.specs.Counting.{one_of, how_many};
ghost use Rattle.sets.specs.Members.{member_of, and_also, all_but, PartOf, FirstFrom, InWords};

use std::marker::PhantomData;

/// Marks a set as one of equations.
pub enum Equation {}

/// Marks a set as one of unknowns.
pub enum Unknown {}

/// A set of numbers from 1 to 128. Bit `i - 1` of `bits` stands for the number `i`, and `K` says what is numbered.
#[derive_where(Clone, Copy, Default, PartialEq, Eq)]
pub struct Numbers<K> {
    // Kept: clauses name the bits. Tried as an `impl Model`, but then a value that holds a set, such as a `Change`, got no proof where it is copied.
    bits: u128,
    kind: PhantomData<K>,
}

/// A set of equations, by their numbers.
pub type EquationSet = Numbers<Equation>;

/// A set of unknowns, by their numbers.
pub type UnknownSet = Numbers<Unknown>;

/// The highest number that a set can hold.
pub const HIGHEST: usize = 128;

/// The bit that stands for `number`; none for 0, or a number above 128.
fn bit_of(number: usize) -> Option<u128>
    ensures { MatchOption result (one_of 128 number ≡ false) (λ bit. (one_of 128 number ≡ true) × (bit ≡ 2 ^ (number - 1))) }
{
    if number > HIGHEST {
        return None;
    }
    Some(1 << number.checked_sub(1)?)
}

impl<K> Numbers<K> {
    /// The set of these bits.
    fn from_bits(bits: u128) -> Self
        ensures { result.bits ≡ bits }
    {
        Numbers {
            bits,
            kind: PhantomData,
        }
    }

    /// The set that holds nothing.
    pub fn empty() -> Self
        ensures { (i : ℕ) → member_of result.bits i ≡ false }
    {
        Self::from_bits(0)
    }

    /// Whether the set holds `number`. It never holds 0, or a number above 128.
    pub fn holds(self, number: usize) -> bool
        ensures { result ≡ member_of self.bits number }
    {
        // Kept: tried by `bit_of`, which took 1.8 times as long on the rows of a source.
        let Some(place) = number.checked_sub(1) else {
            return false;
        };
        if place >= HIGHEST {
            return false;
        }
        (self.bits >> place) & 1 == 1
    }

    /// The set with `number` in it. With 0, or a number above 128, it is the set as it was.
    pub fn with(self, number: usize) -> Self
        ensures { (i : ℕ) → member_of result.bits i ≡ and_also (member_of self.bits) number i }
    {
        let Some(bit) = bit_of(number) else {
            return self;
        };
        Self::from_bits(self.bits | bit)
    }

    /// The set without `number`.
    pub fn without(self, number: usize) -> Self
        ensures { (i : ℕ) → member_of result.bits i ≡ all_but (member_of self.bits) number i }
    {
        let Some(bit) = bit_of(number) else {
            return self;
        };
        Self::from_bits(self.bits & !bit)
    }

    /// How many numbers the set holds.
    pub fn len(self) -> usize
        ensures { result ≡ how_many 128 (member_of self.bits) }
    {
        self.bits.count_ones() as usize
    }

    /// The lowest number of the set that is not below `number`.
    pub fn next_from(self, number: usize) -> Option<usize>
        ensures { FirstFrom (member_of self.bits) number result }
    {
        if number > HIGHEST {
            return None;
        }
        let below = number.saturating_sub(1);
        let rest = self.bits >> below;
        if rest == 0 {
            return None;
        }
        Some(below + rest.trailing_zeros() as usize + 1)
    }

    /// Whether each number of this set is in `other` too.
    pub fn is_subset(self, other: Self) -> bool
        ensures { Decides result (PartOf (member_of self.bits) (member_of other.bits)) }
    {
        self.bits & other.bits == self.bits
    }

    /// The set as two words: bit 0 of the first stands for 1, bit 0 of the second for 65.
    // Kept: no plainer as `From`, since a pair of words does not say which is the low one; std's `to_le_bytes` has a name for the same reason.
    pub fn words(self) -> (u64, u64)
        ensures { InWords self.bits result.0 result.1 }
    {
        (
            (self.bits & 0xffff_ffff_ffff_ffff) as u64,
            (self.bits >> 64) as u64,
        )
    }

    /// The set that two words stand for.
    pub fn from_words(first: u64, second: u64) -> Self
        ensures { InWords result.bits first second }
    {
        Self::from_bits((second as u128) << 64 | first as u128)
    }
}
