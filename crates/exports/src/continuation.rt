// The continuation for programs in other languages.
ghost use Rattle.meaning.specs.Continuation.{continue_sequence};
ghost use Rattle.meaning.specs.Exports.{named_by, Filled};

use crate::field::named_by;
use crate::status::status;
use meaning::FieldNumbers;

// Fills the buffer from the place on with the continuation.
#[unsafe(no_mangle)]
pub extern "C" fn gobashe_continue_sequence(
    field: FieldNumbers,
    polynomial: &[u8],
    start: &[u8],
    buffer: &mut [u8],
    place: usize,
) -> u64
    ensures { Filled
        (continue_sequence (named_by field) polynomial.now start.now place
        buffer.old)
        buffer.old result buffer.new }
{
    let filling = rater::continue_sequence(named_by(field), polynomial, start, buffer, place);
    status(filling)
}
