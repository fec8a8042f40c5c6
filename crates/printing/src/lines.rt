// The lines that the rating program prints.
ghost use Rattle.std.specs.Prelude.{◌≡◌, suc, take};
ghost use Rattle.meaning.specs.Program.{lines_of, PrintCall};

pub use crate::buffer::MOST_PRINTED;
use crate::buffer::Printed;
use crate::result_line::density;
use meaning::FileRating;

// The lent answer bytes of the program.
pub const ANSWER_BYTES: usize = 4097;

// The coefficients that are printed: one more than the degree, at most as many as there are bytes.
fn coefficients(degree: u64, answer: &[u8; ANSWER_BYTES]) -> &[u8]
    ensures { result.now ≡ take (suc degree) answer.now }
{
    let last = degree.min(ANSWER_BYTES as u64 - 1) as usize;
    &answer[..=last]
}

// The header, the result line and, where the file is rated, the poly line.
pub fn printed_lines(rating: FileRating, answer: &[u8; ANSWER_BYTES]) -> Printed
    ensures { result ≡ lines_of rating answer.now }
{
    let mut lines = Printed::new();
    lines.push_word(b"box result density powers\n");
    match rating.outcome {
        Err(refusal) => lines.push_refused(rating.sender, u64::from(refusal)),
        Ok(outcome) => {
            let (degree, _) = density(outcome);
            lines.push_rated(rating.sender, outcome);
            lines.push_poly(coefficients(degree, answer));
        }
    }
    lines
}

// Writes the lines to the front of `out`, and returns their number of bytes. All other bytes are left as they
// were.
pub fn print_rating(
    rating: FileRating,
    answer: &[u8; ANSWER_BYTES],
    out: &mut [u8; MOST_PRINTED],
) -> usize
    ensures { PrintCall rating answer.now out.old result out.new }
{
    let lines = printed_lines(rating, answer);
    let bytes = lines.as_bytes();
    out[..bytes.len()].copy_from_slice(bytes);
    bytes.len()
}
