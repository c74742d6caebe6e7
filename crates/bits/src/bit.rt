// One bit of a word.
ghost use Rattle.std.specs.Prelude.{◌≡◌, ◌%◌, ◌^◌, ◌<◌};
ghost use Rattle.theory.specs.number.Field.{field};

// 2 to the i.
#[tactic(auto, using(theory::specs::number::WordLaws::one_shl))]
pub fn pow2(i: u64) -> u64
    requires { i < 64 }
    ensures { (result ≡ 2 ^ i) × (0 < result) }
{
    1 << i
}

// The digits of x below i.
#[tactic(auto, using(std::proofs::lemmas::Nat::and_mask))]
pub fn low(x: u64, i: u64) -> u64
    requires { i < 64 }
    ensures { result ≡ x % 2 ^ i }
{
    x & (pow2(i) - 1)
}

// Digit i, 0 or 1.
// Kept: a number and no bool, as the promise has digits, and callers add them up.
#[tactic(auto, unfolding(theory::specs::number::Field::field))]
pub fn bit(x: u64, i: u64) -> u64
    requires { i < 64 }
    ensures { (result ≡ field x i 1) × (result < 2) }
{
    (x >> i) % 2
}
