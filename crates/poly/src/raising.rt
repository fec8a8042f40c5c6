// Products with powers in lent bytes: a polynomial of degree n stands in the first n + 1 of them, is
// multiplied by powers of f there, and nothing beyond the new degree is read or written. Assumes as
// many lent bytes as each function says.
ghost use Rattle.std.specs.Prelude.{◌+◌, take, T};
ghost use Rattle.meaning.specs.Field.{are_elements};
ghost use Rattle.meaning.specs.Polynomial.{power};
ghost use Rattle.bridge.proofs.Lists.Spread.{spread};
ghost use Rattle.arith.specs.Represented.{field_of};
ghost use Rattle.lent.specs.raising.Levelled.{Levelled};
ghost use Rattle.poly.specs.products.Product.{Growing, Multiplied};
ghost use Rattle.poly.specs.raising.Raising.{Raising};

use crate::products::times_spread;
use arith::GaloisField;
use lent::levels::Level;
use lent::raising::raised_copy;

// Multiplies the polynomial of degree n in `answer` by f(x^q) `count` times, and returns the new degree.
fn times_spreads(
    field: GaloisField,
    f: &[u8],
    q: usize,
    count: usize,
    answer: &mut [u8],
    mut n: usize,
) -> usize
    requires growing { Growing f.now q count answer.old n }
    requires t { T (are_elements (field_of field) (take (n + 1) answer.old)) }
    ensures { Multiplied (field_of field) (power (field_of field) (spread q f.now) count)
        answer.old n answer.new result }
{
    // Invariant: answer has the product with k of them, of degree n.
    for _k in 0..count {
        n = times_spread(field, f, q, answer, n);
    }
    n
}

// Multiplies the polynomial of degree n in `answer` by f^q `count` times, where q is the power of the level,
// and returns the new degree: f^q is f(x^q) with the coefficients of f raised to q.
fn times_level(
    field: GaloisField,
    f: &[u8],
    level: Level,
    count: usize,
    answer: &mut [u8],
    n: usize,
) -> usize
    requires levelled { Levelled field f.now level }
    requires growing { Growing f.now level.power count answer.old n }
    requires t { T (are_elements (field_of field) (take (n + 1) answer.old)) }
    ensures { Multiplied (field_of field) (power (field_of field)
        (power (field_of field) f.now level.power) count) answer.old n answer.new result }
{
    let mut raised = [0u8; 33];
    raised_copy(field, f, level.exponent, &mut raised);
    times_spreads(field, &raised[0..f.len()], level.power, count, answer, n)
}

// Multiplies the polynomial of degree n in `answer` by f^r, and returns the new degree: each digit of r in
// base p, the characteristic, is a number of factors f^q, q the power of p that the digit stands at.
pub fn times_power(field: GaloisField, f: &[u8], r: usize, answer: &mut [u8], mut n: usize) -> usize
    requires { Raising (field_of field) f.now r answer.old n }
    ensures { Multiplied (field_of field) (power (field_of field) f.now r)
        answer.old n answer.new result }
{
    let mut level = Level::first(field.characteristic() as usize);
    let mut rest = r;
    // Invariant: answer has the product with f^(r − q·rest), of degree n, q being the power of the level.
    while 0 < rest {
        n = times_level(field, f, level, rest % level.base, answer, n);
        rest /= level.base;
        level = level.next();
    }
    n
}
