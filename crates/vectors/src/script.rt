// The list of calls. A line has a letter and three numbers in hex, each with a space before it.
ghost use Rattle.std.specs.Prelude.{◌<◌};

use crate::{changing, listing, planning, reading, rebuilding};
use std::io::Read;

// What a line asks for: of a module its question, or what the state does by itself, or nothing that is known.
#[derive(Clone, Copy)]
pub enum Kind {
    Planning(planning::Ask),
    Reading(reading::Ask),
    Listing(listing::Ask),
    Changing(changing::Ask),
    Rebuilding(rebuilding::Ask),
    Record,
    OtherFirst,
    DestFirst,
    Unknown,
}

// One call: what it asks for and its three numbers.
#[derive(Clone, Copy)]
pub struct Call {
    pub kind: Kind,
    pub x: u64,
    pub y: u64,
    pub z: u64,
}

// By its letter; capitals, but for `S`, are quick.
impl From<u8> for Kind {
    fn from(letter: u8) -> Kind {
        match letter {
            b'e' => Kind::Planning(planning::Ask::Select),
            b'q' => Kind::Planning(planning::Ask::Slots),
            b't' => Kind::Planning(planning::Ask::Specs),
            b'w' => Kind::Planning(planning::Ask::Plan),
            b'k' => Kind::Reading(reading::Ask::Check),
            b'c' => Kind::Reading(reading::Ask::Contains),
            b'C' => Kind::Reading(reading::Ask::ContainsQuick),
            b'n' => Kind::Reading(reading::Ask::Count),
            b'N' => Kind::Reading(reading::Ask::CountQuick),
            b'l' => Kind::Listing(listing::Ask::Begin),
            b's' => Kind::Listing(listing::Ask::Step),
            b'S' => Kind::Listing(listing::Ask::TwoSteps),
            b'f' => Kind::Changing(changing::Ask::Fresh),
            b'i' => Kind::Changing(changing::Ask::Insert),
            b'I' => Kind::Changing(changing::Ask::InsertQuick),
            b'a' => Kind::Changing(changing::Ask::InsertMany),
            b'm' => Kind::Changing(changing::Ask::Remove),
            b'M' => Kind::Changing(changing::Ask::RemoveQuick),
            b'x' => Kind::Changing(changing::Ask::RemoveMany),
            b'b' => Kind::Changing(changing::Ask::Damage),
            b'g' => Kind::Rebuilding(rebuilding::Ask::Grow),
            b'p' => Kind::Rebuilding(rebuilding::Ask::InsertSpare),
            b'P' => Kind::Rebuilding(rebuilding::Ask::InsertSpareQuick),
            b'j' => Kind::Rebuilding(rebuilding::Ask::Merge),
            b'r' => Kind::Record,
            b'o' => Kind::OtherFirst,
            b'd' => Kind::DestFirst,
            _ => Kind::Unknown,
        }
    }
}

// The next byte; none where the input ends or cannot be read, and none for 0.
fn byte(input: &mut impl Read) -> Option<u8> {
    let mut one = [0; 1];
    match input.read(&mut one) {
        Ok(1) if one[0] != 0 => Some(one[0]),
        _ => None,
    }
}

// The value of a hex digit.
fn digit(c: u8) -> u8
    ensures { result < 16 }
{
    match c {
        b'0'..=b'9' => c - b'0',
        b'a'..=b'f' => c - b'a' + 10,
        _ => 0,
    }
}

// The number that ends at a space, a newline or the input's end: 16 digits at most.
fn number(input: &mut impl Read) -> u64 {
    let mut x = 0;
    for _ in 0..17 {
        match byte(input) {
            Some(c) if b'0' <= c => x = (x << 4) | u64::from(digit(c)),
            _ => break,
        }
    }
    x
}

// The next call; none where the input ends.
pub fn next(input: &mut impl Read) -> Option<Call> {
    let letter = byte(input)?;
    byte(input);
    Some(Call {
        kind: Kind::from(letter),
        x: number(input),
        y: number(input),
        z: number(input),
    })
}
