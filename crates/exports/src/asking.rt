// The questions for programs in other languages: which interface this is, whether a number is a prime in
// range, and whether a polynomial is irreducible.
ghost use Rattle.std.specs.Prelude.{◌≡◌};
ghost use Rattle.meaning.specs.Calls.{PrimeCall};
ghost use Rattle.meaning.specs.Answers.{told_irreducible};
ghost use Rattle.meaning.specs.Irreducibility.{ask_irreducible};
ghost use Rattle.meaning.specs.Exports.{version, named_by, answer_told, Question};

use crate::field::named_by;
use meaning::{Answer, FieldNumbers, Refusal};

// The number of the interface; it changes when a function or a struct does.
#[unsafe(no_mangle)]
pub extern "C" fn gobashe_version() -> u64
    ensures { result ≡ version }
{
    4
}

// Whether n is a prime from 2 to 251.
#[unsafe(no_mangle)]
pub extern "C" fn gobashe_prime_in_range(n: u64) -> bool
    ensures { PrimeCall n result }
{
    rater::prime_in_range(n)
}

// The answer as numbers: 1 for yes and 0 for no.
fn answer_told(answer: Result<bool, Refusal>) -> Answer
    ensures { result ≡ answer_told (told_irreducible answer) }
{
    match answer {
        Ok(yes) => Answer {
            status: 0,
            yes: yes.into(),
        },
        Err(r) => Answer {
            status: r.into(),
            yes: 0,
        },
    }
}

// Whether a polynomial is irreducible.
#[unsafe(no_mangle)]
pub extern "C" fn gobashe_is_irreducible(field: FieldNumbers, polynomial: &[u8]) -> Answer
    ensures { Question (ask_irreducible (named_by field) polynomial.now) result }
{
    let answer = rater::is_irreducible(named_by(field), polynomial);
    answer_told(answer)
}
