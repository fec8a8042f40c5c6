// Common divisors by Euclid's algorithm, in lent bytes. Assumes elements of the field in both polynomials.
ghost use Rattle.arith.specs.Represented.{field_of};
ghost use Rattle.poly.specs.common_divisor.Common.{Trimmed, Euclidean, Turned, Common};

use crate::division::divide;
use arith::GaloisField;

// How many coefficients f has up to the last that is not 0.
pub fn trimmed_length(f: &[u8]) -> usize
    ensures { Trimmed f.now result }
{
    match f.iter().rposition(|c| *c != 0) {
        Some(last) => last + 1,
        None => 0,
    }
}

// One turn of Euclid's algorithm: overwrites a with the remainder of a by b. Returns how many coefficients it
// has up to the last that is not 0.
fn turn(field: GaloisField, a: &mut [u8], b: &[u8]) -> usize
    requires { Euclidean (field_of field) a.old b.now }
    ensures { Turned field a.old b.now a.new result }
{
    let e = b.len() - 1;
    divide(field, a, b);
    trimmed_length(&a[0..e])
}

// The degree of a greatest common divisor of a and b, where b is no longer than a and ends with a coefficient
// other than 0: that of b and of the remainder of a by b. Overwrites both.
pub fn common_degree(field: GaloisField, a: &mut [u8], b: &mut [u8]) -> usize
    requires { Euclidean (field_of field) a.old b.old }
    ensures { Common field a.old b.old result }
{
    match turn(field, a, b) {
        0 => b.len() - 1,
        n => common_degree(field, b, &mut a[0..n]),
    }
}
