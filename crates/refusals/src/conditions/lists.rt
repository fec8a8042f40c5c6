// The conditions of the numbered list on one list of numbers: terms or coefficients.
ghost use Rattle.std.specs.Prelude.{◌≡◌};
ghost use Rattle.meaning.specs.Conditions.{term_out_of_field, factor_degree_out_of_range};
ghost use Rattle.meaning.specs.Conditions.{continuation_degree_out_of_range, coefficient_out_of_range};
ghost use Rattle.meaning.specs.Conditions.{not_monic};
ghost use Rattle.meaning.specs.Polynomial.{leading};
ghost use Rattle.meaning.specs.Conditions.{is_reducible, fewer_terms_than, start_unlike_degree};
ghost use Rattle.arith.specs.Represented.{field_of};
ghost use Rattle.irreducible.specs.Accepted.{Accepted};
ghost use Rattle.refusals.specs.conditions.lists.Lists.{largest};

use crate::conditions::numbers::degree_out_of_range;
use arith::GaloisField;
use irreducible::is_irreducible;

// The largest of the numbers, or 0 where there are none.
pub fn largest(l: &[u8]) -> u8
    ensures { result ≡ largest l.now }
{
    l.iter().copied().max().unwrap_or(0)
}

// 8: a term is no element of the field.
pub fn term_out_of_field(field: GaloisField, terms: &[u8]) -> bool
    ensures { result ≡ term_out_of_field (field_of field) terms.now }
{
    !terms.is_empty() && field.size() <= largest(terms) as u16
}

// 10, of a list, whose degree is one less than its length; an empty list passes.
pub fn factor_degree_out_of_range(field: GaloisField, factor: &[u8]) -> bool
    ensures { result ≡ factor_degree_out_of_range (field_of field) factor.now }
{
    !factor.is_empty() && degree_out_of_range(field, factor.len() - 1)
}

// 10, for a continuation: a degree above 4,096.
pub fn continuation_degree_out_of_range(polynomial: &[u8]) -> bool
    ensures { result ≡ continuation_degree_out_of_range polynomial.now }
{
    4097 < polynomial.len()
}

// The leading coefficient, or 0 where there is none.
fn leading(factor: &[u8]) -> u8
    ensures { result ≡ leading factor.now }
{
    match factor.last() {
        Some(c) => *c,
        None => 0,
    }
}

// 11, of a list: a coefficient is no element of the field, the leading one is 0, or the list is empty.
pub fn coefficient_out_of_range(field: GaloisField, factor: &[u8]) -> bool
    ensures { result ≡ coefficient_out_of_range (field_of field) factor.now }
{
    term_out_of_field(field, factor) || leading(factor) == 0
}

// A coefficient is no element of the field, the leading one is not 1, or the list is empty: 12 is not asked.
pub fn not_monic(field: GaloisField, factor: &[u8]) -> bool
    ensures { result ≡ not_monic (field_of field) factor.now }
{
    term_out_of_field(field, factor) || leading(factor) != 1
}

// 12, of a monic list that 10 and 11 let pass: reducible.
pub fn reducible(field: GaloisField, factor: &[u8]) -> bool
    requires { Accepted (field_of field) factor.now }
    ensures { result ≡ is_reducible (field_of field) factor.now }
{
    !is_irreducible(field, factor)
}

// 15: fewer terms than the total degree d.
pub fn fewer_terms_than(d: usize, terms: &[u8]) -> bool
    ensures { result ≡ fewer_terms_than d terms.now }
{
    terms.len() < d
}

// 15, for a continuation: not as many starting terms as the degree, which is 0 for the empty list too.
pub fn start_unlike_degree(polynomial: &[u8], start: &[u8]) -> bool
    ensures { result ≡ start_unlike_degree polynomial.now start.now }
{
    start.len() != polynomial.len().saturating_sub(1)
}
