// Counts of ones, in a word and in a range of it.
ghost use Rattle.std.specs.Prelude.{◌≡◌, ◌+◌, ◌<◌, ◌≤◌};
ghost use Rattle.theory.specs.number.Count.{rank};

use crate::bit::low;

// How many ones x has.
pub fn ones(x: u64) -> u64
    ensures { (result ≡ rank x 64) × (result ≤ 64) }
{
    u64::from(x.count_ones())
}

// How many of the digits of x below i are ones.
pub fn ones_below(x: u64, i: u64) -> u64
    requires { i < 64 }
    ensures { (result ≡ rank x i) × (result ≤ i) }
{
    ones(low(x, i))
}

// How many of the digits of x up to i are ones.
pub fn ones_through(x: u64, i: u64) -> u64
    requires { i < 64 }
    ensures { (result ≡ rank x (i + 1)) × (result ≤ i + 1) }
{
    ones(x << (63 - i))
}

// How many of the digits of x from i to below j are ones.
pub fn ones_between(x: u64, i: u64, j: u64) -> u64
    requires { (i ≤ j) × (j < 64) }
    ensures { (result + rank x i ≡ rank x j) × (result ≤ 64) }
{
    ones(low(x, j) >> i)
}
