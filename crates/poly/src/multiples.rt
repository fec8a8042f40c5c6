// Monic multiples in lent bytes: a factor with any leading coefficient but 0 stands for its monic multiple.
// Assumes elements of the field in the factors.
ghost use Rattle.std.specs.Prelude.{◌≡◌, ◌++◌, map, ◌≤◌, length, take, drop};
ghost use Rattle.meaning.specs.Polynomial.{monic_multiple};
ghost use Rattle.meaning.specs.FlatBytes.{split};
ghost use Rattle.meaning.specs.Slices.{lists_of};
ghost use Rattle.bridge.proofs.Lists.Multiples.{Leads};
ghost use Rattle.arith.specs.Represented.{field_of};
ghost use Rattle.poly.specs.multiples.Packable.{Packable};

use arith::GaloisField;
use lent::overwrite;

// Writes the monic multiple of f, which is as long as f, to the front of `to`, and leaves the rest as it was.
pub fn monic_multiple(field: GaloisField, f: &[u8], to: &mut [u8])
    requires leads { Leads (field_of field) f.now }
    requires f_in_bounds { length f.now ≤ length to.old }
    ensures { to.new
        ≡ monic_multiple (field_of field) f.now
        ++ drop (length f.now) to.old }
{
    let n = f.len();
    overwrite(&mut to[0..n], f);
    let c = f[n - 1];
    if c != 1 {
        let inverse = field.inverse(c);
        field.multiply(&mut to[0..n], inverse);
    }
}

// Writes the monic multiples of at most eight factors to the front of `to`, one after another. Returns their
// lengths, and further numbers after them.
pub fn pack_multiples(field: GaloisField, factors: &[&[u8]], to: &mut [u8]) -> [u64; 9]
    requires { Packable (field_of field) (lists_of factors.now) to.old }
    ensures { split to.new (take (length factors.now) result)
        ≡ map (monic_multiple (field_of field)) (lists_of factors.now) }
{
    let mut lengths = [0u64; 9];
    let mut at = 0;
    // Invariant: the multiples of the factors before i, `at` bytes in all, and their lengths are in place.
    for (i, &f) in factors.iter().enumerate() {
        let n = f.len();
        monic_multiple(field, f, &mut to[at..at + n]);
        lengths[i] = n as u64;
        at += n;
    }
    lengths
}
