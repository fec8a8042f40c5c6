// The way of each mode in a field on the terms and the factors of a file, which 7 to 11 let pass.
ghost use Rattle.std.specs.Prelude.{◌≡◌, false, [], map, length, get_or};
ghost use Rattle.std.proofs.Math.Option.{none};
ghost use Rattle.meaning.specs.Conditions.{named};
ghost use Rattle.meaning.specs.Result.{first_of};
ghost use Rattle.meaning.specs.Period.{period_answer};
ghost use Rattle.meaning.specs.Portion.{set_answer};
ghost use Rattle.meaning.specs.Free.{free_in};
ghost use Rattle.meaning.specs.File.{of_period, of_set, of_free};
ghost use Rattle.arith.specs.Represented.{field_of};
ghost use Rattle.refusals.specs.Verdicts.{terms_table};
ghost use Rattle.rate_file.specs.factors.Written.{factors_in, polynomials_in};
ghost use Rattle.rate_file.specs.modes.Checked.{CheckedFactor, CheckedFactors};
ghost use Rattle.rate_file.specs.modes.Outcomes.{RatedFile};

use crate::factors::{gather_uppers, pack_factors};
use arith::GaloisField;
use meaning::{FileOutcome, FreeRating, PowerRating, Refusal, SetRating};
use poly::parts::nine_parts;
use poly::powered::Powered;
use route::framing::{count_of, first_body};
use route::kind::Kind;
use route::payload::lay_factor;

// The free way on the terms: no powers.
pub fn rate_free_file(
    field: GaloisField,
    terms: &[u8],
    answer: &mut [u8],
    work: &mut [u8],
) -> Result<FileOutcome, Refusal>
    requires { first_of (terms_table (field_of field) terms.now) ≡ none }
    ensures { RatedFile
        (of_free (length terms.now)
        (free_in (field_of field) terms.now (length answer.old)
        (length work.old)))
        answer.old work.old result answer.new work.new }
{
    let denominator = terms.len() as u64;
    match rate_free::rate_checked(field, terms, answer, work)? {
        FreeRating::Unique { degree } => Ok(FileOutcome::Unique {
            degree,
            denominator,
        }),
        FreeRating::Several { degree } => Ok(FileOutcome::Several {
            degree,
            denominator,
        }),
    }
}

// The period way on the terms and the first factor of the file: one power. The density is by the repeat
// length.
pub fn rate_period_file(
    field: GaloisField,
    file: &[u8],
    terms: &[u8],
    answer: &mut [u8],
    work: &mut [u8],
) -> Result<FileOutcome, Refusal>
    requires { CheckedFactor (field_of field) file.now terms.now }
    ensures { RatedFile
        (of_period
        (period_answer (field_of field) false false (get_or (polynomials_in file.now) 0 [])
        terms.now
        (length answer.old) (length work.old)))
        answer.old work.old result answer.new work.new }
{
    let mut factor = [0u8; 33];
    let n = lay_factor(first_body(file, Kind::Factor as u8), &mut factor, 0);
    let PowerRating {
        power,
        degree,
        repeat,
    } = rate_period::rate_checked(field, &factor[..n], terms, answer, work)?;
    Ok(FileOutcome::Powers {
        degree,
        denominator: repeat,
        count: 1,
        powers: [power, 0, 0, 0, 0, 0, 0, 0],
    })
}

// The set way on the terms and the factors of the file: its powers as they are. A file tells no repeat
// length.
pub fn rate_set_file(
    field: GaloisField,
    file: &[u8],
    terms: &[u8],
    answer: &mut [u8],
    work: &mut [u8],
) -> Result<FileOutcome, Refusal>
    requires { CheckedFactors (field_of field) file.now terms.now }
    ensures { RatedFile
        (of_set (length terms.now)
        (set_answer (field_of field) false false
        (named (polynomials_in file.now) (map (λ f. f.upper) (factors_in file.now)))
        terms.now (length answer.old) (length work.old)))
        answer.old work.old result answer.new work.new }
{
    let all = count_of(file, Kind::Factor as u8);
    let mut flat = [0u8; 264];
    let lengths = pack_factors(file, &mut flat);
    let uppers = gather_uppers(file);
    let factors = nine_parts(&flat, &lengths);
    let set = Powered {
        factors: &factors[..all],
        powers: &uppers[..all],
    };
    let SetRating {
        degree,
        repeat: _,
        count,
        powers,
    } = rate_set::rate_checked(field, set, terms, answer, work)?;
    Ok(FileOutcome::Powers {
        degree,
        denominator: terms.len() as u64,
        count,
        powers,
    })
}
