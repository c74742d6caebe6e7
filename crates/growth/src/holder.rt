// Which of the two buffers lent to an insert with a spare holds the filter.
ghost use Rattle.std.specs.Prelude.{◌≡◌};
ghost use Rattle.growth.specs.Holder.{holder_of};

use crate::spare::Placed;
use layout::refusal::Refusal;

// The very slice that was lent, so that what is written through it is written to that buffer; after a refusal, the old one.
pub fn holder<'a>(
    old: &'a mut [u8],
    spare: &'a mut [u8],
    placed: Result<Placed, Refusal>,
) -> &'a mut [u8]
    ensures { result ≡ holder_of placed old.entry spare.entry }
{
    match placed {
        Ok(Placed::InOld(_, _)) => old,
        Ok(Placed::InSpare(_, _)) => spare,
        Err(_) => old,
    }
}
