// Comparisons with exact numbers as answers: what goes by them has no branch, neither in its proof nor, compiled, in its code.
// Kept: `below` and `equal` answer numbers and no bool: what counts adds `equal` up, and `below` tells a number of the check's (layout check/flag.rt).
ghost use Rattle.std.specs.Prelude.{◌≡◌, ◌-◌, ◌≤◌, min, max, ◌≢◌};

// The larger of two numbers.
pub fn larger(a: u64, b: u64) -> u64
    ensures { result ≡ max a b }
{
    a.max(b)
}

// The lesser of two numbers.
pub fn lesser(a: u64, b: u64) -> u64
    ensures { result ≡ min a b }
{
    a.min(b)
}

// a less b, 0 if b is more.
pub fn over(a: u64, b: u64) -> u64
    ensures { result ≡ a - b }
{
    a.saturating_sub(b)
}

// 1 if a is below b, else 0.
pub fn below(a: u64, b: u64) -> u64
    ensures { result ≡ min 1 (b - a) }
{
    u64::from(a < b)
}

// 1 if a equals b, else 0.
pub fn equal(a: u64, b: u64) -> u64
    ensures { (a ≡ b → result ≡ 1) × ((a ≢ b) → result ≡ 0) × (result ≤ 1) }
{
    u64::from(a == b)
}
