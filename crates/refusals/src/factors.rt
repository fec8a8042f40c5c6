// The conditions on factors in their order. As they are given: 10 and 11 for the factor of a period, 9 to 11
// for the factors of a set; 12 and 13 for the monic multiples of these.
ghost use Rattle.std.specs.Prelude.{◌≡◌};
ghost use Rattle.meaning.specs.Result.{first_of};
ghost use Rattle.meaning.specs.Slices.{lists_of};
ghost use Rattle.arith.specs.Represented.{field_of};
ghost use Rattle.refusals.specs.conditions.factors.Factors.{AllAccepted};
ghost use Rattle.meaning.specs.Irreducibility.{irreducible_table};
ghost use Rattle.refusals.specs.Verdicts.{number_in, factors_table, multiples_table};

use crate::conditions::factors::{
    some_coefficient_out_of_range, some_degree_out_of_range, some_reducible, two_equal,
};
use crate::conditions::lists::{coefficient_out_of_range, factor_degree_out_of_range};
use crate::conditions::numbers::factor_count_out_of_range;
use arith::GaloisField;
use meaning::Refusal;

// One factor, or a polynomial of which it is asked whether it is irreducible: 10, 11.
pub fn factor_verdict(field: GaloisField, factor: &[u8]) -> Result<(), Refusal>
    ensures { number_in result ≡ first_of (irreducible_table (field_of field) factor.now) }
{
    if factor_degree_out_of_range(field, factor) {
        return Err(Refusal::DegreeOutOfRange);
    }
    if coefficient_out_of_range(field, factor) {
        return Err(Refusal::CoefficientOutOfRange);
    }
    Ok(())
}

// Several factors: 9, 10, 11.
pub fn factors_verdict(field: GaloisField, factors: &[&[u8]]) -> Result<(), Refusal>
    ensures { number_in result ≡ first_of (factors_table (field_of field) (lists_of factors.now)) }
{
    if factor_count_out_of_range(factors.len()) {
        return Err(Refusal::FactorCount);
    }
    if some_degree_out_of_range(field, factors) {
        return Err(Refusal::DegreeOutOfRange);
    }
    if some_coefficient_out_of_range(field, factors) {
        return Err(Refusal::CoefficientOutOfRange);
    }
    Ok(())
}

// The monic multiples of the factors of a set: 12, 13.
pub fn multiples_verdict(field: GaloisField, multiples: &[&[u8]]) -> Result<(), Refusal>
    requires { AllAccepted (field_of field) (lists_of multiples.now) }
    ensures { number_in result ≡ first_of (multiples_table (field_of field) (lists_of multiples.now)) }
{
    if some_reducible(field, multiples) {
        return Err(Refusal::Reducible);
    }
    if two_equal(multiples) {
        return Err(Refusal::EqualFactors);
    }
    Ok(())
}
