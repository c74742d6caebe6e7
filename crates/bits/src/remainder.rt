// One packed remainder: remainder i takes the rbits digits from digit i * rbits of its area on.
ghost use Rattle.std.specs.Prelude.{◌≡◌, ◌+◌, ◌*◌, ◌^◌, ◌<◌, ◌≤◌, length};
ghost use Rattle.theory.specs.number.Field.{field, put};
ghost use Rattle.theory.specs.number.Bytes.{le};

use crate::field::{get_field, set_field};

// Remainder i of the 64 that stand from byte base on, rbits digits each.
#[tactic(auto, using(theory::specs::number::Field::field_lt))]
pub fn get_remainder(s: &[u8], base: usize, i: u64, rbits: u64) -> u64
    requires { (base + 8 * rbits + 8 ≤ length s.now) × (i < 64) × (rbits ≤ 58) }
    ensures { (result ≡ field (le s.now) (8 * base + i * rbits) rbits) × (result < 2 ^ rbits) }
{
    let p = i * rbits;
    get_field(s, base + (p / 8) as usize, p % 8, rbits)
}

// Remainder i of the 64 that stand from byte base on becomes v.
pub fn set_remainder(s: &mut [u8], base: usize, i: u64, rbits: u64, v: u64)
    requires { (base + 8 * rbits + 8 ≤ length s.old) × (i < 64) × (rbits ≤ 58) × (v < 2 ^ rbits) }
    ensures { le s.new ≡ put (le s.old) (8 * base + i * rbits) rbits v }
{
    let p = i * rbits;
    set_field(s, base + (p / 8) as usize, p % 8, rbits, v);
}
