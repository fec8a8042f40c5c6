// Which polynomials in y of degree up to 8 over GF(2) are irreducible, by their numbers: bit i of the number
// is the coefficient of y^i; and so which n and low name a field of 2^n elements.
ghost use Rattle.std.specs.Prelude.{◌≡◌, not, ◌^◌, ◌≤◌, ◌<◌};
ghost use Rattle.meaning.specs.Conditions.{not_binary};
ghost use Rattle.bridge.proofs.Binary.ReducingPolynomials.{is_reducing};

use crate::field::GaloisField;

// The numbers below 512 of irreducible polynomials as the bits of eight words of 64 bits: bit i of word k is
// 1 if 64·k + i is one.
const REDUCING: [u64; 8] = [
    0x288082208208288c,
    0x0028208208800208,
    0x8200088020028208,
    0x2082802000280802,
    0x8200280028000000,
    0x0882022880002000,
    0x2002020880002880,
    0x0228008020808008,
];

// Whether m, below 512, is the number of an irreducible polynomial: bit m % 64 of word m / 64 says so.
fn is_reducing(m: u64) -> bool
    requires { m < 512 }
    ensures { result ≡ is_reducing m }
{
    (REDUCING[(m / 64) as usize] >> (m % 64)) % 2 == 1
}

// 2^n, for n up to 8.
pub(crate) fn power_of_two(n: u64) -> u64
    requires { n ≤ 8 }
    ensures { (result ≡ 2 ^ n) × (result ≤ 256) }
{
    1u64 << n
}

// Whether `degree`, the n of 2^n, is from 2 to 8, and `low` the bits below y^n of an irreducible polynomial
// of that degree.
pub fn names_binary_field(degree: u64, low: u64) -> bool
    ensures { result ≡ not (not_binary degree low) }
{
    if degree < GaloisField::LEAST_DEGREE {
        return false;
    }
    if GaloisField::LARGEST_DEGREE < degree {
        return false;
    }
    let size = power_of_two(degree);
    if size <= low {
        return false;
    }
    is_reducing(size + low)
}
