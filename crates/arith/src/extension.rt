// The numbers of GF(2^n), n from 2 to 8: bit i of a number is the coefficient of y^i. Each operation takes
// any bytes, of which the n lowest bits count.
ghost use Rattle.std.specs.Prelude.{◌≡◌, ◌%◌, ◌^◌, ◌≤◌, ◌<◌, false, map, length};
ghost use Rattle.meaning.specs.Sequence.{act_at, known};
ghost use Rattle.meaning.specs.Conditions.{not_binary};
ghost use Rattle.bridge.proofs.Lists.Spread.{raise};
ghost use Rattle.arith.specs.Inverse.{inverse};
ghost use Rattle.arith.specs.extension.Planes.{plane_of};

use crate::multiples::{ExtensionMultiples, Multiples, pick};
use crate::reducing::power_of_two;

// GF(2^n): `size` is 2^n, `degree` is n, and `low` has the coefficients of y^0 to y^(n−1) of the reducing
// polynomial.
#[derive(Clone, Copy)]
pub struct ExtensionField {
    pub(crate) size: u16,
    degree: u16,
    low: u16,
    ghost admitted: { not_binary degree low ≡ false },
    ghost size_is_right: { size ≡ 2 ^ degree },
}

// The exclusive or of the terms at the places where the coefficient has the bit.
fn plane(c: &[u8], s: &[u8], bit: u8) -> u8
    requires { length c.now ≤ length s.now }
    ensures { result ≡ plane_of bit c.now (known s.now) 0 }
{
    // Invariant: x and that of the places that are left is the whole.
    let mut x: u8 = 0;
    for (i, coefficient) in c.iter().enumerate() {
        x ^= pick(*coefficient & bit, s[i]);
    }
    x
}

impl ExtensionField {
    ghost use Rattle.arith.specs.extension.Extension.{extension_of};

    // GF(2^n) with n the degree and low the bits of the reducing polynomial below y^n.
    pub(crate) fn new(degree: u64, low: u64) -> Self
        requires { not_binary degree low ≡ false }
        ensures { (result.degree ≡ degree) × (result.low ≡ low) }
    {
        Self {
            size: power_of_two(degree) as u16,
            degree: degree as u16,
            low: low as u16,
        }
    }

    // The element that a byte stands for: its n lowest bits.
    pub fn element(self, a: u8) -> u8
        ensures { result ≡ a % 2 ^ self.degree }
    {
        let mask = (self.size - 1) as u8;
        a & mask
    }

    // y times an element.
    fn double(self, x: u8) -> u8
        requires { x < 2 ^ self.degree }
        ensures { result ≡ (extension_of self).mul 2 x }
    {
        let d = 2 * (x as u16);
        if d < self.size {
            d as u8
        } else {
            ((d - self.size) ^ self.low) as u8
        }
    }

    // The multiples of c: c, y·c, …, y^7·c.
    pub(crate) fn multiples(self, c: u8) -> ExtensionMultiples
        ensures { (result.field ≡ self) × (result.m0 ≡ c % 2 ^ self.degree) }
    {
        let m0 = self.element(c);
        let m1 = self.double(m0);
        let m2 = self.double(m1);
        let m3 = self.double(m2);
        let m4 = self.double(m3);
        let m5 = self.double(m4);
        let m6 = self.double(m5);
        let m7 = self.double(m6);
        ExtensionMultiples {
            field: self,
            m0,
            m1,
            m2,
            m3,
            m4,
            m5,
            m6,
            m7,
        }
    }

    // a + b
    pub fn sum(self, a: u8, b: u8) -> u8
        ensures { result ≡ (extension_of self).add a b }
    {
        self.element(a ^ b)
    }

    // a·b
    pub fn product(self, a: u8, b: u8) -> u8
        ensures { result ≡ (extension_of self).mul a b }
    {
        self.multiples(a).times(b)
    }

    // The number whose product with a is 1; 0 if a is 0: a^(2^n − 2).
    pub fn inverse(self, a: u8) -> u8
        ensures { result ≡ inverse (extension_of self) a }
    {
        let mut x: u8 = 1;
        // Invariant: x = a^(2^i − 2).
        for _i in 1..self.degree {
            let y = self.product(x, a);
            x = self.product(y, y);
        }
        x
    }

    // c0·s0 + c1·s1 + …, a product for each of the coefficients c: y times the sum for their higher bits, and
    // the terms whose coefficient has the bit, from the highest bit down.
    pub fn dot(self, c: &[u8], s: &[u8]) -> u8
        requires { length c.now ≤ length s.now }
        ensures { result ≡ act_at (extension_of self) c.now (known s.now) 0 }
    {
        let mut total: u8 = 0;
        // Invariant: total is the sum for the bits of the coefficients that are passed, divided by the lowest
        // of them.
        for j in (0..self.degree).rev() {
            total = self.sum(self.double(total), plane(c, s, 1 << j));
        }
        total
    }

    // Squares each number.
    pub fn square(self, a: &mut [u8])
        ensures { a.new ≡ map (raise (extension_of self) 2) a.old }
    {
        // Invariant: the first numbers are squared, and the others are as they were.
        for x in a.iter_mut() {
            *x = self.product(*x, *x);
        }
    }
}
