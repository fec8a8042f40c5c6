// The rating of a period with one factor.
#![tactic(auto)]

ghost use Rattle.std.specs.Prelude.{◌≤◌, false, length};
ghost use Rattle.meaning.specs.Period.{period_answer, period_in};
ghost use Rattle.meaning.specs.Calls.{PeriodCall};
ghost use Rattle.arith.specs.Represented.{field_of};
ghost use Rattle.period_way.specs.Period.{told};
ghost use Rattle.rate_period.specs.Ratings.{Answerable, FoundRated, Checked, RatedAs};

use arith::GaloisField;
use meaning::{FieldName, PowerRating, Refusal};
use period_way::period_power;
use poly::multiples::monic_multiple;
use powers::product::write_power;
use refusals::ratings::{given_verdict, period_verdict};
use repeat::shortest::shortest_period;

// The answer with the power of f that was found for the terms, and their shortest period. Writes f to this
// power at the front of the answer bytes, and leaves all beyond its degree as it was. If nothing was found,
// the answer is 17, and the answer bytes stay as they were.
fn rated(
    field: GaloisField,
    answer: &mut [u8],
    f: &[u8],
    terms: &[u8],
    found: Option<u64>,
) -> Result<PowerRating, Refusal>
    requires in_bounds { 4097 ≤ length answer.old }
    requires answerable { Answerable (field_of field) f.now terms.now (told found) }
    ensures { FoundRated (field_of field) f.now terms.now (told found)
        answer.old result answer.new }
{
    let Some(power) = found else {
        return Err(Refusal::NotAnnihilated);
    };
    let degree = write_power(field, answer, f, power);
    let repeat = shortest_period(terms, degree as usize) as u64;
    Ok(PowerRating {
        power,
        degree,
        repeat,
    })
}

// The rating in a field with the monic factor f, once 7, 8, 10 and 11 let f and the terms pass. It leaves all
// lent bytes as `rate_period` does.
pub fn rate_checked(
    field: GaloisField,
    f: &[u8],
    terms: &[u8],
    answer: &mut [u8],
    work: &mut [u8],
) -> Result<PowerRating, Refusal>
    requires { Checked (field_of field) f.now terms.now }
    ensures { RatedAs (period_answer (field_of field) false false f.now terms.now
        (length answer.old) (length work.old))
        answer.old work.old result answer.new work.new }
{
    period_verdict(field, f, answer.len(), work.len())?;
    let found = period_power(field, work, f, terms);
    rated(field, answer, f, terms, found)
}

// The rating in a field with any factor.
fn rate_in(
    field: GaloisField,
    factor: &[u8],
    terms: &[u8],
    answer: &mut [u8],
    work: &mut [u8],
) -> Result<PowerRating, Refusal>
    ensures { RatedAs (period_in (field_of field) factor.now terms.now
        (length answer.old) (length work.old))
        answer.old work.old result answer.new work.new }
{
    given_verdict(field, factor, terms)?;
    let mut multiple = [0u8; 33];
    monic_multiple(field, factor, &mut multiple);
    rate_checked(field, &multiple[0..factor.len()], terms, answer, work)
}

// The least power of the factor, over the field with this name, that annihilates the endless repetition of
// the terms; the degree of the factor to this power; and the repeat length, which is the shortest period of
// the terms. Or the refusal by 6 or 20, 7, 8, 10, 11, 12, 16 or 17. The factor stands for its monic multiple.
// If it accepts, it writes the multiple to the least power at the front of the answer. If it accepts or
// refuses by 17, it clears the first 8,192 work bytes. Every other lent byte stays as it was.
pub fn rate_period(
    name: FieldName,
    factor: &[u8],
    terms: &[u8],
    answer: &mut [u8],
    work: &mut [u8],
) -> Result<PowerRating, Refusal>
    ensures { PeriodCall name factor.now terms.now answer.old
        work.old result answer.new work.new }
{
    let field = GaloisField::try_from(name)?;
    rate_in(field, factor, terms, answer, work)
}
