// The three ways for programs in other languages. Each leaves its polynomial in the answer bytes.
ghost use Rattle.std.specs.Prelude.{◌≡◌, length};
ghost use Rattle.meaning.specs.Answers.{number_of, told_power, told_free};
ghost use Rattle.meaning.specs.Slices.{lists_of};
ghost use Rattle.meaning.specs.Period.{rate_period};
ghost use Rattle.meaning.specs.Portion.{rate_set};
ghost use Rattle.meaning.specs.Free.{rate_free};
ghost use Rattle.meaning.specs.Exports.{named_by, rating_refused, period_told, set_told, free_told};
ghost use Rattle.meaning.specs.Exports.{RatingExported};
ghost use Rattle.exports.specs.ratings.Outcomes.{outcome_told};

use crate::field::named_by;
use meaning::{FieldNumbers, FreeRating, PowerRating, Rating, Refusal, SetRating};

// A refusal: its number, and zeros.
fn refused_rating(refusal: Refusal) -> Rating
    ensures { result ≡ rating_refused (number_of refusal) }
{
    Rating {
        status: refusal.into(),
        complexity: 0,
        repeat: 0,
        word: 0,
        powers: [0; 8],
    }
}

// What the period way tells: its one power stands first.
fn period_rating(rating: Result<PowerRating, Refusal>) -> Rating
    ensures { result ≡ period_told (told_power rating) }
{
    match rating {
        Ok(rating) => {
            let mut powers = [0; 8];
            powers[0] = rating.power;
            Rating {
                status: 0,
                complexity: rating.degree,
                repeat: rating.repeat,
                word: 0,
                powers,
            }
        }
        Err(r) => refused_rating(r),
    }
}

// What the set way tells.
fn set_rating(rating: Result<SetRating, Refusal>) -> Rating
    ensures { result ≡ outcome_told rating }
{
    match rating {
        Ok(rating) => {
            let powers = rating.powers;
            Rating {
                status: 0,
                complexity: rating.degree,
                repeat: rating.repeat,
                word: 0,
                powers,
            }
        }
        Err(r) => refused_rating(r),
    }
}

// What the free way tells, with its word as a number: 1 for `one`, 2 for `some`.
fn free_rating(rating: Result<FreeRating, Refusal>) -> Rating
    ensures { result ≡ free_told (told_free rating) }
{
    match rating {
        Ok(figures) => {
            let (degree, word) = match figures {
                FreeRating::Unique { degree } => (degree, 1),
                FreeRating::Several { degree } => (degree, 2),
            };
            Rating {
                status: 0,
                complexity: degree,
                repeat: 0,
                word,
                powers: [0; 8],
            }
        }
        Err(r) => refused_rating(r),
    }
}

// Rates a period with one factor.
#[unsafe(no_mangle)]
pub extern "C" fn gobashe_rate_period(
    field: FieldNumbers,
    factor: &[u8],
    terms: &[u8],
    answer: &mut [u8],
    work: &mut [u8],
) -> Rating
    ensures { RatingExported period_told
        (rate_period (named_by field) factor.now terms.now
        (length answer.old) (length work.old))
        answer.old work.old result answer.new work.new }
{
    let rating = rater::rate_period(named_by(field), factor, terms, answer, work);
    period_rating(rating)
}

// Rates a portion with one to eight factors, each with its upper power.
#[unsafe(no_mangle)]
pub extern "C" fn gobashe_rate_set(
    field: FieldNumbers,
    factors: &[&[u8]],
    uppers: &[u64],
    terms: &[u8],
    answer: &mut [u8],
    work: &mut [u8],
) -> Rating
    ensures { RatingExported set_told
        (rate_set (named_by field) (lists_of factors.now) uppers.now terms.now
        (length answer.old) (length work.old))
        answer.old work.old result answer.new work.new }
{
    let rating = rater::rate_set(named_by(field), factors, uppers, terms, answer, work);
    set_rating(rating)
}

// Rates known terms with no factor named. In the answer stands the first polynomial of the least degree that
// fits, compared from the highest coefficient down.
#[unsafe(no_mangle)]
pub extern "C" fn gobashe_rate_free(
    field: FieldNumbers,
    terms: &[u8],
    answer: &mut [u8],
    work: &mut [u8],
) -> Rating
    ensures { RatingExported free_told
        (rate_free (named_by field) terms.now (length answer.old)
        (length work.old))
        answer.old work.old result answer.new work.new }
{
    let rating = rater::rate_free(named_by(field), terms, answer, work);
    free_rating(rating)
}
