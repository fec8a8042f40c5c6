// Coefficients of a product with f(x^q), which overwrite the coefficients that they are made of. The one at
// place k is c0·a(k) + c1·a(k − q) + c2·a(k − 2q) + …, and needs none above k: so they are made from the top
// down, at most 256 at a time. Assumes that what is read stands there.
ghost use Rattle.std.specs.Prelude.{◌≡◌};
ghost use Rattle.arith.specs.Represented.{field_of};
ghost use Rattle.poly.specs.convolution.Convolution.{convolved_within, Below};

use arith::GaloisField;
use lent::blocks::act_block;

// Writes c0·w(k) + c1·w(k − q) + …, for the m places k from `at` on, to the m places from `to` on, which do
// not begin before them. All other places stay.
pub fn convolve(
    field: GaloisField,
    f: &[u8],
    q: usize,
    w: &mut [u8],
    at: usize,
    to: usize,
    m: usize,
)
    requires { Below f.now q w.old at to m }
    ensures { w.new
        ≡ convolved_within (field_of field) f.now q w.old at to m }
{
    let mut left = m;
    // Invariant: the places after the first `left` are made, and all others as they were. A block acts on the
    // first n numbers as a period: cyclically, n − q forward is q back.
    while 0 < left {
        let n = at + left;
        let count = left.min(256);
        left -= count;
        act_block(field, w, 0, n, at + left, f, n - q % n, to + left, count);
    }
}
