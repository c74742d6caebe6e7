// Text at the start of a lent buffer. Each function answers how many bytes it wrote.
ghost use Rattle.std.specs.Prelude.{◌≡◌, ◌≤◌, ◌<◌, length};
ghost use Rattle.theory.specs.Text.{digit as digit_of, decimal, headline, line};
ghost use Rattle.check_list.specs.Written.{Written};

// A copy of text.
fn put_bytes(out: &mut [u8], text: &[u8]) -> usize
    requires { length text.now ≤ length out.old }
    ensures { Written text.now out.old out.new result }
{
    out[..text.len()].copy_from_slice(text);
    text.len()
}

// A digit: 0 to 9, then a to f.
#[tactic(auto, using(theory::specs::program::Numerals::digit_low, theory::specs::program::Numerals::digit_high))]
fn digit(d: u64) -> u8
    requires { d < 16 }
    ensures { result ≡ digit_of d }
{
    if d < 10 {
        b'0' + d as u8
    } else {
        b'a' + (d - 10) as u8
    }
}

// A number in decimal.
fn put_decimal(out: &mut [u8], n: u64) -> usize
    requires { length (decimal n) ≤ length out.old }
    ensures { Written (decimal n) out.old out.new result }
{
    if n < 10 {
        out[0] = digit(n);
        return 1;
    }
    let at = put_decimal(out, n / 10);
    out[at] = digit(n % 10);
    at + 1
}

// A word, a space and a number, and a newline.
pub fn put_headline(out: &mut [u8], word: &[u8], n: u64) -> usize
    requires { length (headline word.now n) ≤ length out.old }
    ensures { Written (headline word.now n) out.old out.new result }
{
    let mut at = put_bytes(out, word);
    out[at] = b' ';
    at += 1;
    at += put_decimal(&mut out[at..], n);
    out[at] = b'\n';
    at + 1
}

// A line of 16 lowercase hex digits, the highest first.
pub fn put_line(out: &mut [u8], f: u64) -> usize
    requires { 17 ≤ length out.old }
    ensures { Written (line f) out.old out.new result }
{
    for i in 0..16 {
        out[i] = digit((f >> (60 - 4 * i)) % 16);
    }
    out[16] = b'\n';
    17
}
