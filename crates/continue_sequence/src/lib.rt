// The continuation of a sequence in a lent buffer.
#![tactic(auto)]

pub mod continuation;

ghost use Rattle.meaning.specs.Calls.{ContinueCall};

use crate::continuation::fill;
use arith::GaloisField;
use meaning::{FieldName, Refusal};
use refusals::continue_verdict;

// Fills the buffer, from the place to its end, with the sequence that the polynomial continues the starting
// terms to, and leaves all before the place as it was; or refuses by 6 or 20, 7, 8, 10, 11 or 15, and leaves
// the buffer as it was. The polynomial stands for its monic multiple.
pub fn continue_sequence(
    name: FieldName,
    polynomial: &[u8],
    start: &[u8],
    buffer: &mut [u8],
    place: usize,
) -> Result<(), Refusal>
    ensures { ContinueCall name polynomial.now start.now buffer.old
        place result buffer.new }
{
    let field = GaloisField::try_from(name)?;
    continue_verdict(field, polynomial, start, place, buffer.len())?;
    fill(&mut buffer[place..], field, polynomial, start);
    Ok(())
}
