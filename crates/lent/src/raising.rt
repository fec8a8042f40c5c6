// Coefficients raised to powers of the characteristic of their field, in lent bytes. Assumes elements of it.
ghost use Rattle.std.specs.Prelude.{◌≡◌, map, ◌^◌, ◌≤◌, length, take, T};
ghost use Rattle.meaning.specs.Field.{are_elements};
ghost use Rattle.bridge.proofs.Lists.Spread.{raise};
ghost use Rattle.arith.specs.Represented.{field_of};

use crate::overwrite;
use arith::GaloisField;

// Raises each element to the power p^l, p the characteristic.
fn raise_levels(field: GaloisField, a: &mut [u8], l: usize)
    requires { T (are_elements (field_of field) a.old) }
    ensures { a.new
        ≡ map (raise (field_of field) ((field_of field).characteristic ^ l)) a.old }
{
    // Invariant: each element is raised to p^i.
    for i in 0..l {
        field.frobenius(a);
    }
}

// Writes f, each coefficient raised to the power p^l, p the characteristic, to the front of `to`.
pub fn raised_copy(field: GaloisField, f: &[u8], l: usize, to: &mut [u8])
    requires t { T (are_elements (field_of field) f.now) }
    requires f_in_bounds { length f.now ≤ length to.old }
    ensures { take (length f.now) to.new
        ≡ map (raise (field_of field) ((field_of field).characteristic ^ l)) f.now }
{
    let raised = &mut to[0..f.len()];
    overwrite(raised, f);
    raise_levels(field, raised, l);
}
