// The rating of a route file: its verdict, and then the rating of what it holds. It answers for every file of
// any length.
#![tactic(auto)]

mod factors;
mod modes;
mod records;

ghost use Rattle.std.specs.Prelude.{length};
ghost use Rattle.meaning.specs.Calls.{FileCall};
ghost use Rattle.meaning.specs.File.{rate_file};
ghost use Rattle.rate_file.specs.modes.Outcomes.{RatedFile};

use crate::records::rate_records;
use meaning::{FileOutcome, FileRating, Refusal};
use route::acceptance::file_verdict;
use route::framing::part;
use route::payload::{box_of, gather_terms};

// The rating of a file, the box apart.
fn rated(file: &[u8], answer: &mut [u8], work: &mut [u8]) -> Result<FileOutcome, Refusal>
    ensures { RatedFile (rate_file file.now (length answer.old) (length work.old))
        answer.old work.old result answer.new work.new }
{
    file_verdict(file)?;
    // one more than 7 allows: further terms change nothing
    let mut terms = [0u8; 4097];
    let count = gather_terms(file, &mut terms);
    rate_records(file, part(&terms, 0, count), answer, work)
}

// The rating of a file, with the number of the box that sent it: the answer of the way that its mode names on
// what it holds, or the refusal by 1 to 5 or by that way. If it accepts, it writes the polynomial at the
// front of the answer. If it accepts or refuses by 17, it clears the first 8,192 work bytes. Every other lent
// byte stays as it was.
pub fn rate_file(file: &[u8], answer: &mut [u8], work: &mut [u8]) -> FileRating
    ensures { FileCall file.now answer.old work.old result
        answer.new work.new }
{
    FileRating {
        sender: box_of(file),
        outcome: rated(file, answer, work),
    }
}
