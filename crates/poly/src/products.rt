// Products in lent bytes: a polynomial of degree n stands in the first n + 1 of them, is multiplied there,
// and nothing beyond the new degree is read or written. f(x^q) has the coefficients of f, q places apart.
// Assumes as many lent bytes as each function says.
ghost use Rattle.std.specs.Prelude.{◌≡◌, ◌+◌, ◌++◌, take, drop};
ghost use Rattle.meaning.specs.Polynomial.{times};
ghost use Rattle.bridge.proofs.Lists.Spread.{spread};
ghost use Rattle.arith.specs.Represented.{field_of};
ghost use Rattle.poly.specs.products.Product.{places, Padded, Growing, Multiplied};

use crate::convolution::convolve;
use arith::GaloisField;

// Multiplies the polynomial of degree n in `answer` by f(x^q), where zeros stand after it up to the new
// degree. For the q places from q·b on, coefficients of f after b do not count, those more than n / q before
// b meet only zeros, and the places more than n after the first stay 0.
fn multiply(field: GaloisField, f: &[u8], q: usize, answer: &mut [u8], n: usize)
    requires { Padded f.now q answer.old n }
    ensures { answer.new
        ≡ times (field_of field) (spread q f.now) (take (n + 1) answer.old)
        ++ drop (places f.now q n) answer.old }
{
    let mut k = n + 1 + q * (f.len() - 1);
    // Invariant: answer has the product from k on, and before k the polynomial and the zeros after it.
    for b in (0..f.len()).rev() {
        let to = q * b;
        let back = b.min(n / q);
        let count = (k - to).min(n + 1);
        convolve(field, &f[b - back..b + 1], q, answer, q * back, to, count);
        k = to;
    }
}

// Multiplies the polynomial of degree n in `answer` by f(x^q), and returns the new degree.
pub fn times_spread(field: GaloisField, f: &[u8], q: usize, answer: &mut [u8], n: usize) -> usize
    requires { Growing f.now q 1 answer.old n }
    ensures { Multiplied (field_of field) (spread q f.now)
        answer.old n answer.new result }
{
    let size = n + 1 + q * (f.len() - 1);
    answer[n + 1..size].fill(0);
    multiply(field, f, q, answer, n);
    size - 1
}
