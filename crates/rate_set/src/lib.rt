// The rating of a portion with one to eight factors.
#![tactic(auto)]

ghost use Rattle.std.specs.Prelude.{◌≡◌, false, length, replicate};
ghost use Rattle.meaning.specs.Conditions.{named};
ghost use Rattle.meaning.specs.Portion.{set_answer, set_in};
ghost use Rattle.meaning.specs.Calls.{SetCall};
ghost use Rattle.meaning.specs.Slices.{lists_of};
ghost use Rattle.arith.specs.Represented.{field_of};
ghost use Rattle.rate_set.specs.Ratings.{Checked, SetRatedAs};

use arith::GaloisField;
use meaning::{FieldName, Refusal, SetRating};
use poly::multiples::pack_multiples;
use poly::parts::nine_parts;
use poly::powered::Powered;
use powers::product::write_product;
use refusals::ratings::{given_set_verdict, set_verdict};
use repeat::repeat_length;
use set_way::set_powers;

// The rating in a field with monic factors, once 7 to 11 let the factors and the terms pass. It leaves all
// lent bytes as `rate_set` does.
pub fn rate_checked(
    field: GaloisField,
    set: Powered,
    terms: &[u8],
    answer: &mut [u8],
    work: &mut [u8],
) -> Result<SetRating, Refusal>
    requires { Checked (field_of field) (lists_of set.factors.now) terms.now }
    ensures { SetRatedAs (set_answer (field_of field) false false
        (named (lists_of set.entry.factors.now) set.entry.powers.now) terms.now
        (length answer.old) (length work.old))
        answer.old work.old result answer.new work.new }
{
    set_verdict(field, set, terms, answer.len(), work.len())?;
    let Some(powers) = set_powers(field, work, set, terms) else {
        return Err(Refusal::NotAnnihilated);
    };
    let found = Powered {
        factors: set.factors,
        powers: &powers,
    };
    let degree = write_product(field, answer, found);
    let repeat = repeat_length(field, found);
    Ok(SetRating {
        degree,
        repeat,
        count: set.factors.len() as u64,
        powers,
    })
}

// The rating in a field with any factors.
fn rate_in(
    field: GaloisField,
    factors: &[&[u8]],
    uppers: &[u64],
    terms: &[u8],
    answer: &mut [u8],
    work: &mut [u8],
) -> Result<SetRating, Refusal>
    ensures { SetRatedAs (set_in (field_of field) (lists_of factors.now) uppers.now
        terms.now (length answer.old) (length work.old))
        answer.old work.old result answer.new work.new }
{
    given_set_verdict(field, factors, terms)?;
    let mut flat = [0u8; 264];
    let lengths = pack_multiples(field, factors, &mut flat);
    let multiples = nine_parts(&flat, &lengths);
    let set = Powered {
        factors: &multiples[0..factors.len()],
        powers: uppers,
    };
    rate_checked(field, set, terms, answer, work)
}

// The powers of the factors, over the field with this name, in the minimal polynomial of the continuation of
// the first D terms, D the total degree of the upper powers; the degree of that polynomial; and the repeat
// length, which is the least period of that continuation, or 0 if there is none or it exceeds 65,536. Or the
// refusal by 6 or 20, or 7 to 17. Each factor stands for its monic multiple. If it accepts, it writes the
// polynomial at the front of the answer. If it accepts or refuses by 17, it clears the first 8,192 work
// bytes. Every other lent byte stays as it was.
pub fn rate_set(
    name: FieldName,
    factors: &[&[u8]],
    uppers: &[u64],
    terms: &[u8],
    answer: &mut [u8],
    work: &mut [u8],
) -> Result<SetRating, Refusal>
    ensures { SetCall name (lists_of factors.now) uppers.now terms.now
        answer.old work.old result answer.new work.new }
{
    let field = GaloisField::try_from(name)?;
    rate_in(field, factors, uppers, terms, answer, work)
}
