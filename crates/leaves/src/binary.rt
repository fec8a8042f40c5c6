// Leaves of the fields of 2^n elements. The degree n and the bits of the reducing polynomial below y^n name
// the field. Where they name none, the answer is 0 or false, and all bytes stay as they were.
ghost use Rattle.std.specs.Prelude.{◌≡◌, not, ◌&&◌, length};
ghost use Rattle.meaning.specs.declared.FieldName.{FieldName};
ghost use Rattle.meaning.specs.Sequence.{act_at, known};
ghost use Rattle.meaning.specs.Extension.{binary};
ghost use Rattle.meaning.specs.Conditions.{not_binary};
ghost use Rattle.arith.specs.Inverse.{inverse};
ghost use Rattle.arith.specs.Slices.{combined};
ghost use Rattle.arith.specs.Represented.{field_of, FieldMade};
ghost use Rattle.leaves.specs.Suited.{suited, where_suited};
ghost use Rattle.leaves.specs.binary.Squares.{squares};
ghost use Rattle.leaves.specs.binary.Acted.{has_room, Acted};

use crate::{dot_in, update_in};
use arith::GaloisField;
use arith::reducing::names_binary_field;
use lent::blocks::act_block;
use meaning::{FieldName, Refusal};
use refusals::conditions::lists::term_out_of_field;

// Whether the two numbers name a field.
#[unsafe(no_mangle)]
pub extern "C" fn leaf_names_binary(degree: u64, low: u64) -> bool
    ensures { result ≡ not (not_binary degree low) }
{
    names_binary_field(degree, low)
}

// The field that the two numbers name, or the refusal.
fn named(degree: u64, low: u64) -> Result<GaloisField, Refusal>
    ensures { FieldMade (FieldName.Binary degree low) result }
{
    GaloisField::try_from(FieldName::Binary { degree, low })
}

// a + b
#[unsafe(no_mangle)]
pub extern "C" fn leaf_binary_sum(degree: u64, low: u64, a: u8, b: u8) -> u8
    ensures { result ≡ where_suited (not (not_binary degree low)) ((binary degree low).add a b) 0 }
{
    named(degree, low).map_or(0, |field| field.sum(a, b))
}

// a·b
#[unsafe(no_mangle)]
pub extern "C" fn leaf_binary_product(degree: u64, low: u64, a: u8, b: u8) -> u8
    ensures { result ≡ where_suited (not (not_binary degree low)) ((binary degree low).mul a b) 0 }
{
    named(degree, low).map_or(0, |field| field.product(a, b))
}

// The number whose product with a is 1; 0 if a stands for 0.
#[unsafe(no_mangle)]
pub extern "C" fn leaf_binary_inverse(degree: u64, low: u64, a: u8) -> u8
    ensures { result ≡ where_suited (not (not_binary degree low)) (inverse (binary degree low) a) 0 }
{
    named(degree, low).map_or(0, |field| field.inverse(a))
}

// The sum of products c0·s0 + c1·s1 + …
#[unsafe(no_mangle)]
pub extern "C" fn leaf_binary_dot(degree: u64, low: u64, c: &[u8], s: &[u8]) -> u8
    ensures { result ≡ where_suited
        (suited (length c.now) (length s.now) && not (not_binary degree low))
        (act_at (binary degree low) c.now (known s.now) 0) 0 }
{
    dot_in(FieldName::Binary { degree, low }, c, s)
}

// The update a + c·b of a, as far as b goes.
#[unsafe(no_mangle)]
pub extern "C" fn leaf_binary_update(degree: u64, low: u64, a: &mut [u8], c: u8, b: &[u8])
    ensures { a.new ≡ where_suited
        (suited (length b.now) (length a.old) && not (not_binary degree low))
        (combined (binary degree low) a.old c b.now) a.old }
{
    update_in(FieldName::Binary { degree, low }, a, c, b);
}

// Raises each number of a to the characteristic if all are elements of the field; else leaves a as it was.
fn frobenius_in(field: GaloisField, a: &mut [u8])
    ensures { a.new ≡ squares (field_of field) a.old }
{
    if !term_out_of_field(field, a) {
        field.frobenius(a);
    }
}

// Squares each number of a if all are elements of the field; else leaves a as it was.
#[unsafe(no_mangle)]
pub extern "C" fn leaf_binary_squares(degree: u64, low: u64, a: &mut [u8])
    ensures { a.new
        ≡ where_suited (not (not_binary degree low)) (squares (binary degree low) a.old)
        a.old }
{
    if let Ok(field) = named(degree, low) {
        frobenius_in(field, a);
    }
}

// Whether `size` bytes hold a period of n terms, 1 to 256 of them, and as many after them.
#[tactic(auto, unfolding(crate::specs::binary::Acted::has_room))]
fn has_room(n: usize, size: usize) -> bool
    ensures { result ≡ has_room n size }
{
    1 <= n && n <= 256 && n + n <= size
}

// Acts with f and the stride q on the first n bytes of w as a period: writes the n values after them, and
// answers whether they are all 0. If w is shorter than 2n, or n is not from 1 to 256, it answers false and
// leaves w as it was.
#[unsafe(no_mangle)]
pub extern "C" fn leaf_binary_act(
    degree: u64,
    low: u64,
    w: &mut [u8],
    n: usize,
    f: &[u8],
    q: usize,
) -> bool
    ensures { Acted (has_room n (length w.old) && not (not_binary degree low))
        (binary degree low) w.old n f.now q w.new result }
{
    if !has_room(n, w.len()) {
        return false;
    }
    match named(degree, low) {
        Ok(field) => act_block(field, w, 0, n, 0, f, q, n, n),
        Err(_) => false,
    }
}
