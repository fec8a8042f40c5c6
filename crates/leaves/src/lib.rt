// Leaves on slices, of the arithmetic, of the shortest period and of the orders, for benchmarks and tests
// from another language. Where what a leaf requires does not hold, the answer is 0, and all bytes stay as
// they were. A field is GF(p) here, and GF(2^n) in `binary`.
#![tactic(auto)]

mod binary;

ghost use Rattle.std.specs.Prelude.{◌≡◌, true, not, ◌&&◌, length};
ghost use Rattle.meaning.specs.Field.{prime, prime_in_range};
ghost use Rattle.meaning.specs.FieldNames.{named_field, not_field};
ghost use Rattle.meaning.specs.Sequence.{act_at, known};
ghost use Rattle.meaning.specs.Repeat.{shortest_period};
ghost use Rattle.arith.specs.Represented.{field_of};
ghost use Rattle.arith.specs.Slices.{combined};
ghost use Rattle.leaves.specs.Suited.{suited, where_suited, where_found};
ghost use Rattle.bridge.proofs.Basics.Within.{common_within};
ghost use Rattle.leaves.specs.Remaindered.{Remaindered};
ghost use Rattle.leaves.specs.Orderly.{is_suited, order, small};

use arith::GaloisField;
use meaning::FieldName;
use poly::division::divide;
use refusals::conditions::lists::{
    coefficient_out_of_range, factor_degree_out_of_range, not_monic, reducible, term_out_of_field,
};
use repeat::multiples::common_within;
use repeat::orders::order_within;
use repeat::shortest::shortest_period;

// Whether `first` is at most `second` and at most 65,536.
#[tactic(auto, unfolding(crate::specs::Suited::suited))]
fn suits(first: usize, second: usize) -> bool
    ensures { result ≡ suited first second }
{
    first <= second && first <= 65536
}

// The sum of products c0·s0 + c1·s1 + … in the field with this name.
pub(crate) fn dot_in(name: FieldName, c: &[u8], s: &[u8]) -> u8
    ensures { result
        ≡ where_suited (suited (length c.now) (length s.now) && not (not_field name))
        (act_at (named_field name) c.now (known s.now) 0) 0 }
{
    if !suits(c.len(), s.len()) {
        return 0;
    }
    match GaloisField::try_from(name) {
        Ok(field) => field.dot(c, s),
        Err(_) => 0,
    }
}

// The update a + c·b of a in the field with this name, as far as b goes.
pub(crate) fn update_in(name: FieldName, a: &mut [u8], c: u8, b: &[u8])
    ensures { a.new
        ≡ where_suited (suited (length b.now) (length a.old) && not (not_field name))
        (combined (named_field name) a.old c b.now) a.old }
{
    if !suits(b.len(), a.len()) {
        return;
    }
    if let Ok(field) = GaloisField::try_from(name) {
        field.add_multiple(a, c, b);
    }
}

// The sum of products c0·s0 + c1·s1 + … modulo p.
#[unsafe(no_mangle)]
pub extern "C" fn leaf_dot(p: u64, c: &[u8], s: &[u8]) -> u8
    ensures { result
        ≡ where_suited (suited (length c.now) (length s.now) && prime_in_range p)
        (act_at (prime p) c.now (known s.now) 0) 0 }
{
    dot_in(FieldName::Prime(p), c, s)
}

// The update a + c·b of a modulo p, as far as b goes.
#[unsafe(no_mangle)]
pub extern "C" fn leaf_update(p: u64, a: &mut [u8], c: u8, b: &[u8])
    ensures { a.new
        ≡ where_suited (suited (length b.now) (length a.old) && prime_in_range p)
        (combined (prime p) a.old c b.now) a.old }
{
    update_in(FieldName::Prime(p), a, c, b);
}

// Divides the polynomial in f by g, whose leading coefficient is not 0: leaves the remainder in the first
// bytes, as many as the degree of g, and the quotient by its monic multiple in those after them. Leaves f as
// it was if f or g is no such polynomial over the field.
fn divide_in(field: GaloisField, f: &mut [u8], g: &[u8])
    ensures { Remaindered true (field_of field) g.now f.old f.new }
{
    if coefficient_out_of_range(field, g) {
        return;
    }
    if term_out_of_field(field, f) {
        return;
    }
    divide(field, f, g);
}

// Divides the polynomial in f by g modulo p: leaves what `divide_in` does in GF(p).
#[unsafe(no_mangle)]
pub extern "C" fn leaf_remainder(p: u64, f: &mut [u8], g: &[u8])
    ensures { Remaindered (prime_in_range p) (prime p) g.now f.old
        f.new }
{
    if let Ok(field) = GaloisField::try_from(FieldName::Prime(p)) {
        divide_in(field, f, g);
    }
}

// The shortest period of the endless repetition of the terms.
#[unsafe(no_mangle)]
pub extern "C" fn leaf_shortest_period(terms: &[u8]) -> usize
    ensures { result ≡ where_found (shortest_period terms.now) }
{
    if terms.is_empty() {
        return 0;
    }
    shortest_period(terms, terms.len())
}

// Whether f is monic over the field, of a degree in range, and irreducible.
#[tactic(auto, unfolding(crate::specs::Orderly::is_suited))]
fn is_suited(field: GaloisField, f: &[u8]) -> bool
    ensures { result ≡ is_suited (field_of field) f.now }
{
    !factor_degree_out_of_range(field, f) && !not_monic(field, f) && !reducible(field, f)
}

// The order of x modulo f, which is monic over the field, of a degree in range, and irreducible, or 0 where
// it exceeds the limit, which is at most 65,536, or f is x. 0 for any other f and limit.
#[tactic(auto, unfolding(crate::specs::Suited::where_suited))]
fn order_in(field: GaloisField, f: &[u8], limit: usize) -> usize
    ensures { result ≡ order (field_of field) f.now limit }
{
    if limit <= 65536 && is_suited(field, f) {
        order_within(field, f, limit)
    } else {
        0
    }
}

// The order of x modulo f over GF(p): what `order_in` answers.
#[unsafe(no_mangle)]
pub extern "C" fn leaf_order(p: u64, f: &[u8], limit: usize) -> usize
    ensures { result ≡ where_suited (prime_in_range p) (order (prime p) f.now limit) 0 }
{
    GaloisField::try_from(FieldName::Prime(p)).map_or(0, |field| order_in(field, f, limit))
}

// The least common multiple of m and n, or 0 where it exceeds the limit. Numbers are at most 65,536.
#[tactic(auto, unfolding(crate::specs::Orderly::small, crate::specs::Suited::where_suited))]
#[unsafe(no_mangle)]
pub extern "C" fn leaf_common(m: usize, n: usize, limit: usize) -> usize
    ensures { result ≡ where_suited (small m n limit) (common_within limit m n) 0 }
{
    if m <= 65536 && n <= 65536 && limit <= 65536 {
        common_within(m, n, limit)
    } else {
        0
    }
}
