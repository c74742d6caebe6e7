// A filter that is only read: a growth or a merge takes its list.
use layout::blocks::Blocks;
use layout::numbers::Numbers;

// The bytes with the widths that they are read at, and how many fingerprints are held.
#[derive(Clone, Copy)]
pub struct Source<'a> {
    pub lent: Blocks<'a>,
    pub len: u64,
}

impl<'a> Source<'a> {
    ghost use Rattle.std.specs.Prelude.{◌≡◌};
    ghost use Rattle.layout.specs.Records.{lowest_due};
    ghost use Rattle.growth.specs.Reading.{Reads};

    // A filter that passed 1 to 5.
    pub fn new(buf: &'a [u8], n: Numbers) -> Source<'a>
        requires { lowest_due n buf.now ≡ 0 }
        ensures { Reads n buf.now result }
    {
        Source {
            lent: Blocks::of(buf, n),
            len: n.len,
        }
    }
}
