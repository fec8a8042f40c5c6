// Division in lent bytes, by a polynomial whose leading coefficient is not 0. Assumes elements of the field
// in both.
ghost use Rattle.std.specs.Prelude.{◌≡◌, get_or};
ghost use Rattle.meaning.specs.Field.{negative};
ghost use Rattle.meaning.specs.Polynomial.{degree};
ghost use Rattle.arith.specs.Inverse.{inverse};
ghost use Rattle.arith.specs.Represented.{field_of};
ghost use Rattle.poly.specs.division.Division.{Divisible, Divided};

use arith::GaloisField;

// Divides the polynomial in f by g, of degree e, where c is −1 / a for the leading coefficient a of g: leaves
// the remainder in the first e bytes, and in those after them the quotient by the monic multiple of g. A
// polynomial of at most e coefficients is its own remainder. The highest coefficient b that is left goes away
// when c·b times g is added. min(e, i) is always e; written so, the loop vectorizes.
pub(crate) fn divide_by(field: GaloisField, f: &mut [u8], g: &[u8], c: u8)
    requires divisible { Divisible (field_of field) f.old g.now }
    requires c_value { c ≡ negative (field_of field)
        (inverse (field_of field) (get_or g.now (degree g.now) 0)) }
    ensures { Divided (field_of field)
        (inverse (field_of field) (get_or g.now (degree g.now) 0))
        g.now f.old f.new }
{
    let e = g.len() - 1;
    // Invariant: the bytes before i, and the product of the monic multiple of g and those from i on, e places
    // lower, add up to the polynomial.
    for i in (e..f.len()).rev() {
        let q = field.product(c, f[i]);
        let n = e.min(i);
        field.add_multiple(&mut f[i - n..i], q, &g[0..n]);
    }
}

// Divides the polynomial in f by g, of degree e: leaves the remainder in the first e bytes, and in those
// after them the quotient by the monic multiple of g.
pub fn divide(field: GaloisField, f: &mut [u8], g: &[u8])
    requires { Divisible (field_of field) f.old g.now }
    ensures { Divided (field_of field)
        (inverse (field_of field) (get_or g.now (degree g.now) 0))
        g.now f.old f.new }
{
    let e = g.len() - 1;
    divide_by(field, f, g, field.negative(field.inverse(g[e])));
}
