// The conditions over all factors of a set: those that are asked of each factor, and those on all of them
// together with their upper powers. For any slices of any length, but for 12, which assumes that
// 10 and 11 let the factors pass; no lent byte is changed. A factor without an upper power has 0, and
// further upper powers belong to no factor.
ghost use Rattle.std.specs.Prelude.{◌≡◌, eqb};
ghost use Rattle.meaning.specs.Search.{holds_for_some};
ghost use Rattle.meaning.specs.Polynomial.{same};
ghost use Rattle.meaning.specs.Conditions.{named, is_reducible, two_equal, upper_powers_out_of_range};
ghost use Rattle.meaning.specs.Conditions.{factor_degree_out_of_range, coefficient_out_of_range};
ghost use Rattle.meaning.specs.Slices.{lists_of};
ghost use Rattle.arith.specs.Represented.{field_of};
ghost use Rattle.refusals.specs.conditions.factors.Factors.{AllAccepted};

use crate::conditions::lists::{coefficient_out_of_range, factor_degree_out_of_range, reducible};
use arith::GaloisField;
use poly::equality::same;
use poly::factors::upper_at;
use poly::powered::Powered;

// 10: the degree of a factor is out of range.
pub fn some_degree_out_of_range(field: GaloisField, factors: &[&[u8]]) -> bool
    ensures { result ≡ holds_for_some (factor_degree_out_of_range (field_of field))
        (lists_of factors.now) }
{
    factors.iter().any(|f| factor_degree_out_of_range(field, f))
}

// 11: a factor has a coefficient that is no element of the field, or a leading one that is 0.
pub fn some_coefficient_out_of_range(field: GaloisField, factors: &[&[u8]]) -> bool
    ensures { result ≡ holds_for_some (coefficient_out_of_range (field_of field)) (lists_of factors.now) }
{
    factors.iter().any(|f| coefficient_out_of_range(field, f))
}

// 12: one of the monic factors, which 10 and 11 let pass, is reducible.
pub fn some_reducible(field: GaloisField, factors: &[&[u8]]) -> bool
    requires { AllAccepted (field_of field) (lists_of factors.now) }
    ensures { result ≡ holds_for_some (is_reducible (field_of field)) (lists_of factors.now) }
{
    // no factor before f is reducible: f and those after it decide
    for f in factors {
        if reducible(field, f) {
            return true;
        }
    }
    false
}

// Whether one of the factors equals f.
fn occurs(f: &[u8], factors: &[&[u8]]) -> bool
    ensures { result ≡ holds_for_some (same f.now) (lists_of factors.now) }
{
    factors.iter().any(|g| same(f, g))
}

// 13: two factors are equal.
pub fn two_equal(factors: &[&[u8]]) -> bool
    ensures { result ≡ two_equal (lists_of factors.now) }
{
    // no factor before factor i equals a later one: the factors from i on decide
    for i in 0..factors.len() {
        if occurs(factors[i], &factors[i + 1..]) {
            return true;
        }
    }
    false
}

// Whether an upper power is 0.
fn some_upper_zero(set: Powered) -> bool
    ensures { result ≡ holds_for_some (λ f. eqb f.1 0)
        (named (lists_of set.entry.factors.now) set.entry.powers.now) }
{
    // none before i: the factors from i on decide
    for i in 0..set.factors.len() {
        if upper_at(set.powers, i) == 0 {
            return true;
        }
    }
    false
}

// 14: an upper power is 0, or the total degree exceeds 4,096.
pub fn upper_powers_out_of_range(set: Powered) -> bool
    ensures { result ≡ upper_powers_out_of_range (named (lists_of set.entry.factors.now)
        set.entry.powers.now) }
{
    some_upper_zero(set) || 4096 < set.total_degree()
}
