// The check program: is standard input a sound list, and what does it hold? All that matters is `report`; `main` reads and writes.
#![tactic(auto)]

ghost use Rattle.std.specs.Prelude.{◌≤◌, length};

use report::TEXT;
use std::io;
use std::io::Read;

mod report;
mod text;

// As many bytes as come before the input's end or a read that fails, and have room: they stand at the start of the buffer, and this is how many.
fn read_full(input: &mut impl Read, buffer: &mut [u8]) -> usize
    ensures { result ≤ length buffer.new }
{
    // Kept: no method of std says how many bytes came before a read that fails.
    let mut size = 0;
    while size < buffer.len() {
        let count = input.read(&mut buffer[size..]).unwrap_or(0);
        if count == 0 {
            break;
        }
        size += count;
    }
    size
}

// It reads no more than can matter (theory, program/Enough), so a stream of any length ends.
fn main(rt: HostRuntime) -> io::Result<()> {
    let mut input = report::input_room();
    let size = read_full(&mut rt.stdin(), &mut input);
    let mut out = [0; TEXT];
    let count = report::report(&input[..size], &mut out);
    rt.write_all(&out[..count])
}
