// The numbers of GF(p) and of GF(2^n): the field as a small value, and its operations on numbers and on
// slices. The contracts speak of the field that the value stands for, and no caller sees a remainder or an
// exclusive or. Each operation takes any bytes, and a byte that is no element counts as the one that it
// stands for. Every value of the types stands for a field: their ghost fields say so.
#![tactic(auto)]

mod extension;
mod field;
mod multiples;
pub mod prime_field;
pub mod primes;
mod products;
pub mod reducing;
pub mod sums;
mod vectors;

pub use extension::ExtensionField;
pub use field::GaloisField;
pub use prime_field::PrimeField;
