// From the bytes of the input to the bytes that the program writes.
ghost use Rattle.std.specs.Prelude.{◌≡◌, ◌+◌, ◌*◌, ◌≤◌, length};
ghost use Rattle.theory.specs.Text.{lines};
ghost use Rattle.theory.specs.Report.{header_bytes, mark_due, header_due, refused, sound, report_of};
ghost use Rattle.theory.specs.program.Enough.{enough};
ghost use Rattle.layout.specs.Records.{SoundOf};
ghost use Rattle.layout.specs.Refusals.{number, Asked};
ghost use Rattle.check_list.specs.Written.{Written};
ghost use Rattle.check_list.specs.Steps.{numbers_of, PutStep, Ready};

use crate::text::{put_headline, put_line};
use filter::listing::{Place, begin, step_from};
use layout::numbers::Numbers;
use layout::refusal::Refusal;
use layout::shape::Shape;

// The largest qbits that the program takes; the sizes below follow from it.
pub const MAX_QBITS: u8 = 9;

// The bytes in front of the buffer: the mark and the record.
const HEADER: usize = 21;

// The slots of a filter of that qbits.
const SLOTS: usize = 1 << MAX_QBITS;

// The header, the largest buffer, and one byte more.
const INPUT: usize = HEADER + (SLOTS / 64 * (17 + 8 * (64 - MAX_QBITS as usize)) + 8) + 1;

// A line with a word and a number, and a line for each slot.
// Kept: lent memory of this size, and how much of it is text, since nothing here takes from a heap.
pub const TEXT: usize = 32 + 17 * SLOTS;

// Room for as much of the input as can matter.
pub fn input_room() -> [u8; INPUT]
    ensures { length result ≡ enough }
{
    [0; INPUT]
}

// Number 13, if the header is cut short or its mark is another.
#[tactic(auto, using(theory::specs::refusals::ProgramAsks::mark_short, theory::specs::refusals::ProgramAsks::mark_first, theory::specs::refusals::ProgramAsks::mark_second, theory::specs::refusals::ProgramAsks::mark_none))]
fn mark_due(input: &[u8]) -> Result<(), Refusal>
    ensures { Asked (mark_due input.now) result }
{
    if input.len() < HEADER || input[0] != 0x51 || input[1] != 0x46 {
        return Err(Refusal::NoList);
    }
    Ok(())
}

// Kept: it needs 21 bytes, and `From` takes a slice of any length.
// The numbers in front of the buffer.
fn numbers_of(input: &[u8]) -> Numbers
    requires { header_bytes ≤ length input.now }
    ensures { result ≡ numbers_of input.now }
{
    let len = bits::word::read64(input, 2);
    let family = bits::word::read64(input, 13);
    Numbers::empty(input[10], input[11], input[12], family).with_len(len)
}

// The first of 13, 1 and 14 that is due.
#[tactic(auto, using(theory::specs::refusals::ProgramAsks::header_widths, layout::specs::Refusals::number_some))]
fn header_due(input: &[u8]) -> Result<(), Refusal>
    ensures { Asked (header_due input.now) result }
{
    mark_due(input)?;
    let n = numbers_of(input);
    let shape = Shape::new(n.qbits, n.rbits)?;
    if MAX_QBITS < shape.qbits {
        return Err(Refusal::TooLarge);
    }
    Ok(())
}

// The line of a refusal.
fn put_refused(out: &mut [u8], refusal: Refusal) -> usize
    requires { 32 ≤ length out.old }
    ensures { Written (refused (number refusal)) out.old out.new result }
{
    put_headline(out, b"refused", u64::from(u8::from(refusal)))
}

// The line of the fingerprint at a place, and the place behind it.
fn put_step(out: &mut [u8], buf: &[u8], n: Numbers, place: Place) -> Place
    requires { 17 ≤ length out.old }
    ensures { PutStep n buf.now place out.old out.new result }
{
    let stepped = step_from(buf, n, place);
    let Ok(Some(f)) = stepped.step else {
        return stepped.place;
    };
    put_line(out, f);
    stepped.place
}

// A line for each fingerprint from the first place on.
fn put_lines(out: &mut [u8], buf: &[u8], n: Numbers, first: Place) -> usize
    requires { (Ready n buf.now first) × (17 * n.len ≤ length out.old) }
    ensures { (h : SoundOf n buf.now) → Written (lines h.held) out.old out.new result }
{
    let count = n.len as usize;
    let mut place = first;
    for k in 0..count {
        place = put_step(&mut out[17 * k..], buf, n, place);
    }
    17 * count
}

// The line of a sound filter, and a line for each fingerprint.
fn put_sound(out: &mut [u8], buf: &[u8], n: Numbers, first: Place) -> usize
    requires { (Ready n buf.now first) × (32 + 17 * n.len ≤ length out.old) }
    ensures { (h : SoundOf n buf.now) → Written (sound n.len h.held) out.old out.new result }
{
    let at = put_headline(out, b"sound", n.len);
    at + put_lines(&mut out[at..], buf, n, first)
}

// The text for an input of any length, at the start of out; the rest of out stays as it was.
pub fn report(input: &[u8], out: &mut [u8; TEXT]) -> usize
    ensures { Written (report_of input.now) out.old out.new result }
{
    if let Err(refusal) = header_due(input) {
        return put_refused(out, refusal);
    }
    let n = numbers_of(input);
    let buf = &input[HEADER..];
    match begin(buf, n) {
        Err(refusal) => put_refused(out, refusal),
        Ok(place) => put_sound(out, buf, n, place),
    }
}
