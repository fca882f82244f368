//! The bits of masks and of words. A mask stands for a set of places: bit `i` is set where place `i` is
//! in it. Nothing stands below this crate but the library; faces, restrictions and sets of numbers stand
//! on it.
#![tactic(auto)]

ghost use Rattle.std.specs.Prelude.{◌≡◌, ◌<◌, ◌↔◌, IsTrue};
ghost use Rattle.git_bits.specs.Bits.{has_bit, IsWithin};
ghost use Rattle.git_bits.specs.Laws.{BitsAreOfParts, BitsDecideNumbers, SmallNumbersHaveLowBits, BitsDecideWithin};

/// Whether the word has the bit at a place from 0 to 63.
pub fn has_bit(word: u64, place: u32) -> bool
    requires { place < 64 }
    ensures { result ≡ has_bit word place }
{
    (word >> place) % 2 == 1
}

/// Whether each bit of the first word is one of the second.
pub fn is_within(word: u64, other: u64) -> bool
    ensures { IsTrue result ↔ IsWithin word other }
{
    word & other == word
}

/// The bit at place i says whether the number over 2^i, rounded down, is odd.
pub fn bits_are_of_parts()
    ensures { BitsAreOfParts }
{}

/// Numbers with the same bits are equal.
pub fn bits_decide_numbers()
    ensures { BitsDecideNumbers }
{}

/// A number below 2^i has no bit from place i on.
pub fn small_numbers_have_low_bits()
    ensures { SmallNumbersHaveLowBits }
{}

/// A number is within another exactly where the other has each of its bits.
pub fn bits_decide_within()
    ensures { BitsDecideWithin }
{}

#[cfg(test)]
mod tests;
