// Polynomials over a field in lent bytes: products with f(x^q) and with powers of f, division with remainder,
// monic multiples, products modulo a polynomial, common divisors, equality; lists as parts of flat bytes, and
// the total degree of factors with their upper powers.
#![tactic(auto)]

pub mod common_divisor;
pub mod convolution;
pub mod division;
pub mod equality;
pub mod factors;
pub mod multiples;
pub mod parts;
pub mod powered;
pub mod products;
pub mod raising;
pub mod residues;
