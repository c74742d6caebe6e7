// Some digits of a word, and of a byte slice where they fit one word.
ghost use Rattle.std.specs.Prelude.{◌≡◌, ◌+◌, ◌*◌, ◌^◌, ◌<◌, ◌≤◌, length};
ghost use Rattle.theory.specs.number.Field.{field, put};
ghost use Rattle.theory.specs.number.Bytes.{le};

use crate::bit::low;
use crate::word::{read64, write64};

// w digits of x from digit p on.
#[tactic(auto, unfolding(theory::specs::number::Field::field))]
pub fn field_of(x: u64, p: u64, w: u64) -> u64
    requires { (p < 64) × (w < 64) }
    ensures { result ≡ field x p w }
{
    low(x >> p, w)
}

// x with v there.
pub fn put_in(x: u64, p: u64, w: u64, v: u64) -> u64
    requires { (p < 64) × (w < 64) × (p + w ≤ 64) × (v < 2 ^ w) }
    ensures { result ≡ put x p w v }
{
    x - (field_of(x, p, w) << p) + (v << p)
}

// w digits of the buffer from digit p of byte k on, with one read of eight bytes.
#[tactic(auto, using(theory::specs::number::Field::field_field))]
pub fn get_field(s: &[u8], k: usize, p: u64, w: u64) -> u64
    requires { (k + 8 ≤ length s.now) × (p < 64) × (w < 64) × (p + w ≤ 64) }
    ensures { result ≡ field (le s.now) (8 * k + p) w }
{
    field_of(read64(s, k), p, w)
}

// w digits of the buffer from digit p of byte k on become v, with one read and one write of eight bytes.
#[tactic(auto, using(theory::specs::number::Field::put_put))]
pub fn set_field(s: &mut [u8], k: usize, p: u64, w: u64, v: u64)
    requires { (k + 8 ≤ length s.old) × (p < 64) × (w < 64) × (p + w ≤ 64) × (v < 2 ^ w) }
    ensures { le s.new ≡ put (le s.old) (8 * k + p) w v }
{
    let x = read64(s, k);
    write64(s, k, put_in(x, p, w, v));
}
