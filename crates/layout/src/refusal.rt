// Why a call refuses: the rules' numbers, each with its words.
ghost use Rattle.std.specs.Prelude.{◌≡◌, Some, decimal};
ghost use Rattle.layout.specs.Refusals.{number};

use std::error::Error;
use std::fmt;

// A refusal; its number is the one beside it.
#[derive(Clone, Copy, Debug, PartialEq, Eq)]
pub enum Refusal {
    // qbits outside 6 to 59, rbits 0, or their sum above 64
    Widths = 1,
    // the buffer's length is not that of the widths
    BufferLength = 2,
    // len above the slots
    TooMany = 3,
    // max_qbits below qbits, above 59, or above qbits + rbits - 1
    MaxQbits = 4,
    // len above capacity
    TooFull = 5,
    // the buffer is not sound
    NotSound = 6,
    // no room
    NoRoom = 7,
    // the other filter's fingerprints are narrower
    Narrower = 8,
    // planned widths above 64 bits
    TooWide = 9,
    // planned capacity above 547637714688252314
    CapacityTooLarge = 10,
    // planned maximum below the initial capacity
    MaximumBelowInitial = 11,
    // the destination has the wrong length
    DestinationLength = 12,
    // of the check program: the header is cut short, or its mark is another
    NoList = 13,
    // of the check program: qbits above the largest that it takes
    TooLarge = 14,
    // the two filters are of two families
    TwoFamilies = 19,
}

impl From<Refusal> for u8 {
    ghost from_gives = { λ refusal result. result ≡ number refusal };

    // The rules' number.
    fn from(refusal: Refusal) -> u8 {
        refusal as u8
    }
}

impl fmt::Display for Refusal {
    ghost output = { λ refusal. Some (decimal (number refusal)) };

    // The rules' number, in decimal.
    fn fmt<W: fmt::Write>(&self, f: &mut fmt::Formatter<W>) -> fmt::Result {
        write!(f, "{}", u8::from(*self))
    }
}

impl Error for Refusal {}
