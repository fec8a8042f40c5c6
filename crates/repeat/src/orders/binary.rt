// Powers of x modulo a polynomial over GF(2), which is a word: bit i is the coefficient of x^i.
ghost use Rattle.repeat.specs.orders.Words.{Power};

use irreducible::binary::BinaryModulus;

// x^n modulo f: the square of x^(n / 2), times x if n is odd.
pub fn power(f: BinaryModulus, n: u64) -> u64
    ensures { Power f.word f.degree n result }
{
    if n == 0 {
        return 1;
    }
    let half = power(f, n / 2);
    f.remainder(f.square(half) << (n % 2), 1)
}
