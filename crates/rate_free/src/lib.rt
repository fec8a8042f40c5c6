// The rating of known terms with no factor named: the public call of the free way. Assumes nothing.
#![tactic(auto)]

ghost use Rattle.std.specs.Prelude.{◌≡◌, length};
ghost use Rattle.std.proofs.Math.Option.{none};
ghost use Rattle.meaning.specs.Result.{first_of};
ghost use Rattle.meaning.specs.Free.{free_in};
ghost use Rattle.meaning.specs.Calls.{FreeCall};
ghost use Rattle.arith.specs.Represented.{field_of};
ghost use Rattle.refusals.specs.Verdicts.{terms_table};
ghost use Rattle.rate_free.specs.Ratings.{FreeRatedAs};

use arith::GaloisField;
use massey::{figures, shortest_recurrence};
use meaning::{FieldName, FreeRating, Refusal};
use refusals::{lent_verdict, terms_verdict};

// The rating in a field of terms that 7 and 8 let pass.
pub fn rate_checked(
    field: GaloisField,
    terms: &[u8],
    answer: &mut [u8],
    work: &mut [u8],
) -> Result<FreeRating, Refusal>
    requires { first_of (terms_table (field_of field) terms.now) ≡ none }
    ensures { FreeRatedAs (free_in (field_of field) terms.now (length answer.old)
        (length work.old))
        answer.old work.old result answer.new work.new }
{
    lent_verdict(answer.len(), work.len())?;
    let degree = shortest_recurrence(field, terms, answer, work);
    Ok(figures(degree, terms.len()))
}

// The rating in a field.
fn rate_in(
    field: GaloisField,
    terms: &[u8],
    answer: &mut [u8],
    work: &mut [u8],
) -> Result<FreeRating, Refusal>
    ensures { FreeRatedAs (free_in (field_of field) terms.now (length answer.old)
        (length work.old))
        answer.old work.old result answer.new work.new }
{
    terms_verdict(field, terms)?;
    rate_checked(field, terms, answer, work)
}

// The least degree L of a monic polynomial over the field with this name that annihilates the m terms, and
// whether 2L is at most m, so that only one of that degree does; or the refusal by 6 or 20, 7, 8 or 16. If
// it accepts, it writes the first of these polynomials at the front of the answer (two are compared from the
// coefficient of degree L − 1 downwards) and clears the first 8,192 work bytes. Every other lent byte stays
// as it was.
pub fn rate_free(
    name: FieldName,
    terms: &[u8],
    answer: &mut [u8],
    work: &mut [u8],
) -> Result<FreeRating, Refusal>
    ensures { FreeCall name terms.now answer.old work.old result
        answer.new work.new }
{
    let field = GaloisField::try_from(name)?;
    rate_in(field, terms, answer, work)
}
