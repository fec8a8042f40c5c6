// The conditions of the period way and the set way in their order, all but the last, 17: those on what is
// given, and then those on the monic multiples for which the factors stand.
ghost use Rattle.std.specs.Prelude.{◌≡◌};
ghost use Rattle.meaning.specs.Result.{first_of};
ghost use Rattle.meaning.specs.Conditions.{named};
ghost use Rattle.meaning.specs.Slices.{lists_of};
ghost use Rattle.arith.specs.Represented.{field_of};
ghost use Rattle.irreducible.specs.Accepted.{Accepted};
ghost use Rattle.refusals.specs.conditions.factors.Factors.{AllAccepted};
ghost use Rattle.refusals.specs.Verdicts.{number_in, powers_table, given_table, given_set_table, period_rest};
ghost use Rattle.refusals.specs.Verdicts.{set_rest};

use crate::conditions::factors::upper_powers_out_of_range;
use crate::conditions::lists::{fewer_terms_than, reducible};
use crate::factors::{factor_verdict, factors_verdict, multiples_verdict};
use crate::{lent_verdict, terms_verdict};
use arith::GaloisField;
use meaning::Refusal;
use poly::powered::Powered;

// What the upper powers, their total degree, the number of terms and the lent bytes decide: 14, 15, 16.
fn powers_verdict(set: Powered, terms: &[u8], answer: usize, work: usize) -> Result<(), Refusal>
    ensures { number_in result
        ≡ first_of (powers_table (named (lists_of set.entry.factors.now) set.entry.powers.now)
        terms.now answer work) }
{
    if upper_powers_out_of_range(set) {
        return Err(Refusal::UpperPowers);
    }
    if fewer_terms_than(set.total_degree(), terms) {
        return Err(Refusal::TooFewTerms);
    }
    lent_verdict(answer, work)
}

// The terms and one factor as they are given: 7, 8, 10, 11.
pub fn given_verdict(field: GaloisField, factor: &[u8], terms: &[u8]) -> Result<(), Refusal>
    ensures { number_in result ≡ first_of
        (given_table (field_of field) factor.now terms.now) }
{
    terms_verdict(field, terms)?;
    factor_verdict(field, factor)
}

// The terms and the factors of a set as they are given: 7 to 11.
pub fn given_set_verdict(field: GaloisField, factors: &[&[u8]], terms: &[u8]) -> Result<(), Refusal>
    ensures { number_in result
        ≡ first_of (given_set_table (field_of field) (lists_of factors.now) terms.now) }
{
    terms_verdict(field, terms)?;
    factors_verdict(field, factors)
}

// The period way after that: 12, 16.
pub fn period_verdict(
    field: GaloisField,
    multiple: &[u8],
    answer: usize,
    work: usize,
) -> Result<(), Refusal>
    requires { Accepted (field_of field) multiple.now }
    ensures { number_in result ≡ first_of (period_rest (field_of field) multiple.now answer work) }
{
    if reducible(field, multiple) {
        return Err(Refusal::Reducible);
    }
    lent_verdict(answer, work)
}

// The set way after that, with monic multiples and their upper powers: 12 to 16.
pub fn set_verdict(
    field: GaloisField,
    set: Powered,
    terms: &[u8],
    answer: usize,
    work: usize,
) -> Result<(), Refusal>
    requires { AllAccepted (field_of field) (lists_of set.factors.now) }
    ensures { number_in result
        ≡ first_of
        (set_rest (field_of field) (lists_of set.entry.factors.now) set.entry.powers.now
        terms.now
        answer work) }
{
    multiples_verdict(field, set.factors)?;
    powers_verdict(set, terms, answer, work)
}
