// Little-endian words in a byte slice. A byte list is one number, and a word is a field of it.
ghost use Rattle.std.specs.Prelude.{◌≡◌, ◌+◌, ◌*◌, ◌^◌, ◌<◌, ◌≤◌, length};
ghost use Rattle.theory.specs.number.Field.{field, put};
ghost use Rattle.theory.specs.number.Bytes.{le};

// The byte at o.
#[tactic(auto, using(theory::specs::number::Bytes::le_byte))]
pub fn read8(s: &[u8], o: usize) -> u64
    requires { o + 1 ≤ length s.now }
    ensures { (result ≡ field (le s.now) (8 * o) 8) × (result < 2 ^ 8) }
{
    u64::from(s[o])
}

// The word of eight bytes at o.
pub fn read64(s: &[u8], o: usize) -> u64
    requires { o + 8 ≤ length s.now }
    ensures { result ≡ field (le s.now) (8 * o) 64 }
{
    u64::from_le_bytes(s[o..o + 8].try_into().unwrap())
}

// The byte at o becomes x.
#[tactic(auto, using(theory::specs::number::Bytes::le_set))]
pub fn write8(s: &mut [u8], o: usize, x: u64)
    requires { (o + 1 ≤ length s.old) × (x < 2 ^ 8) }
    ensures { le s.new ≡ put (le s.old) (8 * o) 8 x }
{
    s[o] = x as u8;
}

// The eight bytes at o become x.
pub fn write64(s: &mut [u8], o: usize, x: u64)
    requires { o + 8 ≤ length s.old }
    ensures { le s.new ≡ put (le s.old) (8 * o) 64 x }
{
    s[o..o + 8].copy_from_slice(&x.to_le_bytes());
}
