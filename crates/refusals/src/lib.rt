// The conditions of the numbered list of refusals in their order, one function for each call: the first that
// holds in a field, but for 17. Each answers for any numbers and slices of any length, but for those from 12
// on, which assume that 10 and 11 let the factors pass; none changes a lent byte. Whoever makes the field has
// met 6 or 20.
#![tactic(auto)]

pub mod conditions;
pub mod factors;
pub mod ratings;

ghost use Rattle.std.specs.Prelude.{◌≡◌};
ghost use Rattle.meaning.specs.Result.{first_of};
ghost use Rattle.meaning.specs.Free.{free_table};
ghost use Rattle.meaning.specs.Meter.{term_table};
ghost use Rattle.meaning.specs.Continuation.{continue_table};
ghost use Rattle.arith.specs.Represented.{field_of};
ghost use Rattle.refusals.specs.Verdicts.{number_in, terms_table, lent_table};

use crate::conditions::lists::{
    coefficient_out_of_range, continuation_degree_out_of_range, start_unlike_degree,
    term_out_of_field,
};
use crate::conditions::numbers::{
    count_out_of_range, lent_too_short, meter_full, place_out_of_range,
};
use arith::GaloisField;
use meaning::Refusal;

// 7, 8: what all ways of rating meet first in the field.
pub fn terms_verdict(field: GaloisField, terms: &[u8]) -> Result<(), Refusal>
    ensures { number_in result ≡ first_of (terms_table (field_of field) terms.now) }
{
    if count_out_of_range(terms.len()) {
        return Err(Refusal::CountOutOfRange);
    }
    if term_out_of_field(field, terms) {
        return Err(Refusal::TermOutOfField);
    }
    Ok(())
}

// 16: what all ways of rating meet last, but for 17.
pub fn lent_verdict(answer: usize, work: usize) -> Result<(), Refusal>
    ensures { number_in result ≡ first_of (lent_table answer work) }
{
    if lent_too_short(answer, work) {
        return Err(Refusal::LentTooShort);
    }
    Ok(())
}

// The free way: 7, 8, 16.
pub fn free_verdict(
    field: GaloisField,
    terms: &[u8],
    answer: usize,
    work: usize,
) -> Result<(), Refusal>
    ensures { number_in result ≡ first_of (free_table (field_of field) terms.now answer work) }
{
    terms_verdict(field, terms)?;
    lent_verdict(answer, work)
}

// A term for a meter that holds so many: 8, 18.
pub fn term_verdict(field: GaloisField, held: usize, term: u8) -> Result<(), Refusal>
    ensures { number_in result ≡ first_of (term_table (field_of field) held term) }
{
    let terms = [term];
    if term_out_of_field(field, &terms) {
        return Err(Refusal::TermOutOfField);
    }
    if meter_full(held) {
        return Err(Refusal::MeterFull);
    }
    Ok(())
}

// The continuation: 7, 8, 10, 11, 15, for a buffer of `size` bytes.
pub fn continue_verdict(
    field: GaloisField,
    polynomial: &[u8],
    start: &[u8],
    place: usize,
    size: usize,
) -> Result<(), Refusal>
    ensures { number_in result
        ≡ first_of (continue_table (field_of field) polynomial.now start.now place
        size) }
{
    if place_out_of_range(size, place) {
        return Err(Refusal::CountOutOfRange);
    }
    if term_out_of_field(field, start) {
        return Err(Refusal::TermOutOfField);
    }
    if continuation_degree_out_of_range(polynomial) {
        return Err(Refusal::DegreeOutOfRange);
    }
    if coefficient_out_of_range(field, polynomial) {
        return Err(Refusal::CoefficientOutOfRange);
    }
    if start_unlike_degree(polynomial, start) {
        return Err(Refusal::TooFewTerms);
    }
    Ok(())
}
