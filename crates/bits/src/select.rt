// The position of the n-th one of a word, and of the lowest from a digit on.
ghost use Rattle.std.specs.Prelude.{◌-◌, ◌<◌, ◌≤◌, min};
ghost use Rattle.bits.specs.Lowest.{LowestFrom};
ghost use Rattle.bits.specs.Select.{Selected, Cleared};

use crate::count::ones;

// y without its lowest one if j < n, else y. The compiler makes no jump of it, so none is mispredicted.
fn clear_step(y: u64, j: u64, n: u64) -> u64
    ensures { Cleared y (min 1 (n - j)) result }
{
    if j < n {
        y & std::num::wrapping_sub_u64(y, 1)
    } else {
        y
    }
}

// x without its n lowest ones, for n up to 4.
fn clear_few(x: u64, n: u64) -> u64
    requires { n ≤ 4 }
    ensures { Cleared x n result }
{
    let one = clear_step(x, 0, n);
    let two = clear_step(one, 1, n);
    let three = clear_step(two, 2, n);
    clear_step(three, 3, n)
}

// The n-th one of x, counted from 0, for every n: the n ones before it are cleared, lowest first, four at a time.
pub fn select(x: u64, n: u64) -> Option<u64>
    ensures { Selected x n result }
{
    if ones(x) <= n {
        return None;
    }
    let mut y = x;
    let mut left = n;
    // Kept: it counts no index, it takes four ones at a time.
    while 4 < left {
        y = clear_few(y, 4);
        left -= 4;
    }
    Some(u64::trailing_zeros(clear_few(y, left)) as u64)
}

// The lowest one of x at digit i or above: the zeros below it in x shifted down are counted by one instruction.
pub fn lowest_from(x: u64, i: u64) -> Option<u64>
    requires { i < 64 }
    ensures { LowestFrom x i result }
{
    let high = x >> i;
    if high == 0 {
        return None;
    }
    Some(i + (u64::trailing_zeros(high) as u64))
}
